//! The codes of the root and of a link: two numbers in one word.

ghost use Rattle.std.specs.Prelude.{◌≡◌, ◌+◌, ◌*◌, ◌^◌, ◌<◌, ◌≤◌};
ghost use Rattle.cx_base.specs.Codes.{root_code_of, root_place_of, root_replica_of, link_code_of, link_ticket_of, link_cell_of};

/// The root code of a place and a replica, of 2 replicas for each caller.
pub fn root_code(callers: u32, place: u64, replica: u32) -> u64
    requires some { 1 ≤ callers }
    requires few { callers ≤ 8 }
    requires place { place ≤ 2 ^ 40 }
    requires replica { replica < 2 * callers }
    ensures { result ≡ root_code_of callers place replica }
{
    place * (2 * u64::from(callers)) + u64::from(replica)
}

/// The place that a root code names.
pub fn root_place(callers: u32, code: u64) -> u64
    requires some { 1 ≤ callers }
    requires few { callers ≤ 8 }
    ensures { result ≡ root_place_of callers code }
{
    code / (2 * u64::from(callers))
}

/// The replica that a root code names.
pub fn root_replica(callers: u32, code: u64) -> u32
    requires some { 1 ≤ callers }
    requires few { callers ≤ 8 }
    ensures value { result ≡ root_replica_of callers code }
    ensures within { result < 2 * callers }
{
    (code % (2 * u64::from(callers))) as u32
}

/// The link code of a ticket and a cell, of 16 cells for each caller. It is never 0.
pub fn link_code(callers: u32, ticket: u64, cell: u32) -> u64
    requires some { 1 ≤ callers }
    requires few { callers ≤ 8 }
    requires ticket { ticket < 2 ^ 40 }
    requires cell { cell < 16 * callers }
    ensures value { result ≡ link_code_of callers ticket cell }
    ensures linked { 0 < result }
{
    ticket * (16 * u64::from(callers)) + u64::from(cell) + 1
}

/// The ticket that a link code names.
pub fn link_ticket(callers: u32, code: u64) -> u64
    requires some { 1 ≤ callers }
    requires few { callers ≤ 8 }
    requires linked { 0 < code }
    ensures { result ≡ link_ticket_of callers code }
{
    (code - 1) / (16 * u64::from(callers))
}

/// The cell that a link code names.
pub fn link_cell(callers: u32, code: u64) -> u32
    requires some { 1 ≤ callers }
    requires few { callers ≤ 8 }
    requires linked { 0 < code }
    ensures value { result ≡ link_cell_of callers code }
    ensures within { result < 16 * callers }
{
    ((code - 1) % (16 * u64::from(callers))) as u32
}

/// The law that a root code gives its place and its replica back.
pub fn root_parts(callers: u32, place: u64, replica: u32)
    requires { replica < 2 * callers }
    ensures place { root_place_of callers (root_code_of callers place replica) ≡ place }
    ensures replica { root_replica_of callers (root_code_of callers place replica) ≡ replica }
{}

/// The law that each number is the root code of its place and its replica.
pub fn root_whole(callers: u32, code: u64)
    requires { 1 ≤ callers }
    ensures { root_code_of callers (root_place_of callers code) (root_replica_of callers code) ≡ code }
{}

/// The law that a link code gives its ticket and its cell back.
pub fn link_parts(callers: u32, ticket: u64, cell: u32)
    requires { cell < 16 * callers }
    ensures ticket { link_ticket_of callers (link_code_of callers ticket cell) ≡ ticket }
    ensures cell { link_cell_of callers (link_code_of callers ticket cell) ≡ cell }
{}

/// The law that each number but 0 is the link code of its ticket and its cell.
pub fn link_whole(callers: u32, code: u64)
    requires some { 1 ≤ callers }
    requires linked { 0 < code }
    ensures { link_code_of callers (link_ticket_of callers code) (link_cell_of callers code) ≡ code }
{}
