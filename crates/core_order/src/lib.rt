//! Two laws over whole runs of the state machine, in the textbooks' words. Linearizability (Herlihy and Wing 1990): all operations of a run have one
//! order in which the object alone gives each reply, and which keeps real time (`runs_have_one_order`). Durable linearizability over several lives
//! (Izraelevitz, Mendes, Scott 2016): where each life starts from what a crash left of the one before it, the histories that were kept make
//! one history, in which each life's answers are the object's, none of which is lost (`lives_are_one_object`). And two laws on which an image that a caller
//! takes rests (`images`). Each law is the contract of a function that does nothing.
#![tactic(auto)]

pub mod images;
pub mod lives;
pub mod one_order;
