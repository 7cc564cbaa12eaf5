//! Texts of crash images, which are read and written.

use crate::holds::holds;
use cx_base::Items;
use image_text::{Image, image_text, read_image};
use std::alloc::{AllocError, Global};
use std::test::Fail;

/// An image: its callers, its lines, the number of words of all replicas, its root code, and the words that are not 0, as pairs of index and word.
type Numbers = (u32, u64, u64, u64, &'static [(u64, u64)]);

/// A row: an image, and the texts that are read as this image, with a `|` between two.
type ImageRow = (Numbers, &'static [u8]);

/// The words that are not 0 of an image of one caller whose replica 1 is at place 1, with the document 1 under the key a. Pairs of index and word;
/// replica 1 begins at word 1680, and its object's part at word 2848.
const ONE_DOCUMENT: &[(u64, u64)] = &[
    // the place, and the number and the reply of the caller's entry
    (1680, 1),
    (1688, 1),
    (1689, 1),
    // the object's part; 97 is the byte of the key a, and 49 that of the document 1
    (2848, 1),
    (2849, 1),
    (2851, 4),
    (2853, 1),
    (2858, 1),
    (2859, 2),
    (2860, 1),
    (2861, 3),
    (2862, 1),
    (2865, 97),
    (2873, 49),
];

// Each row: callers, lines, number of words, root code and pairs of an image; then texts of that image.
static IMAGES: [ImageRow; 5] = [
    // the last line may lack its end, and lines may end with a carriage return and a line feed
    (
        (1, 64, 3360, 0, &[(1168, 1), (1171, 1)]),
        b"image 1 64 3360\nroot 0\n1168 1\n1171 1\n|image 1 64 3360\nroot 0\n1168 1\n1171 1|image 1 64 3360\r\nroot 0\r\n1168 1\n1171 1\r\n",
    ),
    // one caller; root code 3 names replica 1 at place 1
    (
        (1, 64, 3360, 3, ONE_DOCUMENT),
        b"image 1 64 3360\nroot 3\n1680 1\n1688 1\n1689 1\n2848 1\n2849 1\n2851 4\n2853 1\n2858 1\n2859 2\n2860 1\n2861 3\n2862 1\n2865 97\n2873 49\n",
    ),
    // two callers, and a last line without its end
    (
        (2, 64, 6720, 31, &[(5040, 6), (6208, 1)]),
        b"image 2 64 6720\nroot 31\n5040 6\n6208 1",
    ),
    // the greatest numbers of callers and of lines, and the greatest words
    (
        (
            8,
            16384,
            u64::MAX,
            u64::MAX,
            &[(0, u64::MAX), (u64::MAX - 1, 1)],
        ),
        b"image 8 16384 18446744073709551615\nroot 18446744073709551615\n0 18446744073709551615\n18446744073709551614 1",
    ),
    // no words, and so no pairs
    (
        (1, 64, 0, 0, &[]),
        b"image 1 64 0\nroot 0|image 1 64 0\nroot 0\n|image 1 64 0\r\nroot 0\r\n",
    ),
];

// Asserts that each text is read as the image of its row.
#[test]
fn image_texts_are_read(rt: HostRuntime) {
    holds(&rt, first_other(rt.alloc(), &IMAGES).is_none());
}

/// The index of the first row with a text that is refused, or read as another image; `None` if there is no such row.
fn first_other(alloc: Global, rows: &[ImageRow]) -> Option<usize> {
    for (i, (want, texts)) in rows.iter().enumerate() {
        for text in texts.split(|b| *b == b'|') {
            if !is_read(alloc, text, want) {
                return Some(i);
            }
        }
    }
    None
}

/// Whether a text is read as the image `want`. `false` also where it is refused.
fn is_read(alloc: Global, text: &[u8], want: &Numbers) -> bool {
    match read_image(alloc, text) {
        Ok(image) => is_image(&image, want),
        Err(_) => false,
    }
}

// Whether an image has the callers, lines, number of words, root code and pairs of `want`, in this order.
fn is_image(image: &Image, want: &Numbers) -> bool {
    image.callers == want.0
        && image.lines == want.1
        && image.count == want.2
        && image.root == want.3
        && image.pairs.as_slice() == want.4
}

/// A row: the pairs of an image of one caller and 64 lines with root code 7, as index and word, and the text of the image. Words that are 0 are not
/// written.
type TextRow = (&'static [(u64, u64)], &'static [u8]);

// Each row: pairs of index and word, and the text in which those with the word 0 are left out.
static TEXTS: [TextRow; 3] = [
    (&[], b"image 1 64 3360\nroot 7\n"),
    (&[(0, 0), (3359, 0)], b"image 1 64 3360\nroot 7\n"),
    (
        &[(0, 5), (7, 0), (8, u64::MAX), (3359, 1)],
        b"image 1 64 3360\nroot 7\n0 5\n8 18446744073709551615\n3359 1\n",
    ),
];

// Asserts that the text of each row's image is that of the row.
#[test]
fn words_that_are_not_zero_are_written(rt: HostRuntime) -> Result<(), Fail> {
    holds(&rt, first_unwritten(rt.alloc(), &TEXTS)?.is_none());
    Ok(())
}

/// The index of the first row whose pairs have another text; `None` if there is none. `Err` means out of memory.
fn first_unwritten(alloc: Global, rows: &[TextRow]) -> Result<Option<usize>, AllocError> {
    for (i, (pairs, want)) in rows.iter().enumerate() {
        if !is_written(alloc, pairs, want)? {
            return Ok(Some(i));
        }
    }
    Ok(None)
}

/// Whether the text of an image of one caller and 64 lines with root code 7 and these pairs is `want`. `Err` means out of memory.
fn is_written(alloc: Global, pairs: &[(u64, u64)], want: &[u8]) -> Result<bool, AllocError> {
    let image = Image {
        callers: 1,
        lines: 64,
        count: 3360,
        root: 7,
        pairs: Items::of(Vec::from_slice(alloc, pairs)?),
    };
    match image_text(alloc, &image) {
        Ok(text) => Ok(text.as_slice() == want),
        Err(_) => Ok(false),
    }
}
