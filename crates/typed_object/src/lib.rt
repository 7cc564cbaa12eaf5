//! The construction knows words alone. Who uses a data structure thinks of values: operations and replies with types, and a sequential
//! specification over them.
//!
//! A typed object gives both, and the abstraction relation between them: which words an operation and a reply have, and which image represents
//! which value. It is proved once that each step of words does what the operation means (`has_meaning`). This is data refinement (Hoare, "Proof of
//! Correctness of Data Representations", Acta Informatica 1972), with a relation in place of his function. So what is proved of words, that the
//! service is linearizable and durable, holds of the values.
#![tactic(auto)]

mod object;

pub use object::TypedObject;
