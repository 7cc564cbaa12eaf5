//! Laws of balanced trees.

ghost use Rattle.std.specs.Prelude.{◌≡◌, ◌≤◌, ◌^◌, ◌+◌, ◌*◌, ◌++◌, ◌∷◌, [], ℕ, List};
ghost use Rattle.std.specs.declared.cmp.Ordering.{Ordering};
ghost use Rattle.avl_words.specs.Removal.{with_out};
ghost use Rattle.avl_words.specs.Tree.{Tree, Empty, Node, height, items, size, Balanced};
ghost use Rattle.avl_words.specs.Ways.{Turn, before, behind, spot, whole, with_new};

/// A balanced tree of height h has n items with 2 ^ h ≤ (n + 1) ^ 2.
pub fn trees_are_shallow()
    ensures { (t : Tree ℕ) → Balanced t → 2 ^ height t ≤ (size t + 1) * (size t + 1) }
{}

/// A new item stands where a walk by an order ends, and the tree is balanced as before.
pub fn items_are_put()
    ensures items { (order : ℕ → Ordering) (x : ℕ) (t : Tree ℕ) → items (with_new order x t) ≡ before (spot order [] t).0 ++ x ∷ behind (spot order [] t).0 }
    ensures balanced { (order : ℕ → Ordering) (x : ℕ) (t : Tree ℕ) → (spot order [] t).1 ≡ Empty → Balanced t → Balanced (with_new order x t) }
{}

/// Without the item at the end of a way the others stand in order as before, and the tree is balanced as before.
pub fn items_are_taken_out()
    ensures items { (way : List (Turn ℕ)) (l : Tree ℕ) (x : ℕ) (r : Tree ℕ) → items (with_out way (Node l x r)) ≡ before way ++ (items l ++ (items r ++ behind way)) }
    ensures balanced { (way : List (Turn ℕ)) (l : Tree ℕ) (x : ℕ) (r : Tree ℕ) → Balanced (whole way (Node l x r)) → Balanced (with_out way (Node l x r)) }
{}
