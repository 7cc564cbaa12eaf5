//! Sessions are closed one by one, in any order and by any thread. The last one closes the service.

ghost use Rattle.std.specs.Prelude.{◌≡◌, List, MatchResult};
ghost use Rattle.std.specs.Arc.{arc_value};
ghost use Rattle.table_invariant.specs.Running.{Running};
ghost use Rattle.cx_service.specs.Closes.{seats_of};
ghost use Rattle.cx_service.specs.declared.close.Handed as handed_type;
ghost use Rattle.cx_table.specs.Remains.{AreSeats};
ghost use Rattle.c_sessions.specs.Closings.{AreAccounted, Closes, ClosesTo, IsClosedWith};
ghost use Rattle.c_sessions.specs.Handing.{IsSessionRestOf};
ghost use Rattle.c_sessions.specs.Sessions.{IsSessionOpen};
ghost use Rattle.c_sessions.specs.declared.handover.ReturnQueue.{ReturnQueue};

use crate::exit::{Account, ClosingState, Unclosed};
use crate::gather::gather;
use crate::rule::HandedIn;
use crate::session::Session;
use cx_base::Object;
use cx_service::Kept;
use cx_table::Remains;
use seat_pool::in_order;
use std::alloc::Global;
use std::sync::Arc;
use std::sync::atomic::Ordering;

/// The result of closing a session.
#[derive(Drop)]
pub enum Closing<O: Object> {
    /// Other sessions of the service are not closed yet. The caller lies in the queue of those that were handed in.
    Others,
    /// Others were in the way in each try to hand the caller in: the session is as it was.
    Again(Session<O>),
    /// It was the last session: what the service leaves, and the account of the callers that the sessions handed in.
    Closed(Remains, Account<O>),
    /// It was the last session, and memory ran out: the service and all its callers, of caller 0 first, and the account of the callers handed in.
    Kept(Kept<O>, Account<O>),
    /// It was the last session, and a caller of the service is missing: what it has is to be closed again, by `close_rest`.
    Missing(Unclosed<O>),
    /// It was the last session and has all callers, and a share of the service is elsewhere: what it has is to be closed again, by `close_rest`.
    Shared(Unclosed<O>),
}

impl<O: Object> Session<O> {
    /// Closes the session. Its caller is handed in, in whatever state it is. The session that is closed last takes all callers of the
    /// service out, and closes it with them as they were handed in: no caller makes a step of its own in between.
    ///
    /// Each result of it, `closing`, as the library for C takes it. From `crates/githoppu_c/src/content.rt`:
    /// ```rattle
    /// match closing {
    ///     Closing::Others => (HandleState::Gone, OTHERS),
    ///     Closing::Again(session) => (HandleState::Session(session), AGAIN),
    ///     Closing::Closed(remains, _) => (HandleState::Closed(remains), DONE),
    ///     Closing::Kept(kept, _) => (HandleState::Kept(kept), NO_MEMORY),
    ///     Closing::Missing(rest) => (HandleState::Unclosed(rest), LOST),
    ///     Closing::Shared(rest) => (HandleState::Unclosed(rest), AGAIN),
    /// }
    /// ```
    pub fn close(self, alloc: Global) -> Closing<O>
        requires { IsSessionOpen self }
        ensures { Closes O.line_count O.lawful O.step O.only_reads self result }
    {
        let Session {
            service,
            exit,
            handed,
            place,
        } = self;
        let ClosingState {
            handover,
            mut pass,
            gathered,
            out,
        } = exit;
        // the caller goes into the queue, with its share of the service; where it does not, the session is put together again
        if let Err(back) = handover.hand_in(&mut pass, HandedIn { service, handed }) {
            let exit = ClosingState {
                handover,
                pass,
                gathered,
                out,
            };
            return Closing::Again(Session {
                service: back.service,
                exit,
                handed: back.handed,
                place,
            });
        }
        // `came` is how many sessions counted their caller as handed in before this one
        let came = handover.came.fetch_add(1, Ordering::SeqCst);
        let last = u64::from(handover.callers) - 1;
        // where the service has one caller, this session is the last
        if came != last && last > 0 {
            return Closing::Others;
        }
        // this session counted its caller last: it goes on to take all callers out of the queue and to close the service
        let exit = ClosingState {
            handover,
            pass,
            gathered,
            out,
        };
        close_rest(
            alloc,
            Unclosed {
                service: None,
                exit,
            },
        )
    }
}

/// Gathers the callers that are still in the queue, and closes the service where all callers are gathered then and no share of it is elsewhere.
/// `rest` is what the session that was closed last has of the service `r`; that session handed in `given`. It answers `Closed`, `Kept`, `Missing` or
/// `Shared`.
pub fn close_rest<O: Object>(alloc: Global, rest: Unclosed<O>) -> Closing<O>
    requires { (r : Running O) × (given : List handed_type.Handed) × IsSessionRestOf r given rest }
    ensures { (r : Running O) (given : List handed_type.Handed) → IsSessionRestOf r given rest → ClosesTo O.line_count O.lawful O.step O.only_reads r (arc_value rest.exit.handover) given result }
{
    let Unclosed { service, exit } = rest;
    let ClosingState {
        handover,
        mut pass,
        gathered,
        out,
    } = exit;
    let (service, gathered) = gather(&handover, &mut pass, service, gathered);
    // fewer callers than the service has: one is missing
    if gathered.len() < handover.callers as usize {
        let exit = ClosingState {
            handover,
            pass,
            gathered,
            out,
        };
        return Closing::Missing(Unclosed { service, exit });
    }
    // for the proof: the callers that the pass took out are all of the service, as they were handed in
    handover.learn(&mut pass);
    let Some(service) = service else {
        unreachable!()
    };
    // the service is had alone where this share of it is the only one left
    match Arc::try_unwrap(service) {
        Ok(service) => {
            let callers = in_order(&service, gathered, out);
            close_all(alloc, Kept { service, callers }, Account { pass })
        }
        Err(service) => {
            let exit = ClosingState {
                handover,
                pass,
                gathered,
                out,
            };
            Closing::Shared(Unclosed {
                service: Some(service),
                exit,
            })
        }
    }
}

/// Closes the service in `kept` with all its callers, which are in the order of their numbers. `account` is the pass that took them out of the
/// queue. The result is `Closed`, or `Kept` where memory ran out.
fn close_all<O: Object>(alloc: Global, kept: Kept<O>, account: Account<O>) -> Closing<O>
    requires { AreSeats kept.service (seats_of kept.callers.items) }
    ensures { (handover : ReturnQueue O) (given : List handed_type.Handed) → AreAccounted handover given account kept.callers.items → ClosesTo O.line_count O.lawful O.step O.only_reads kept.service handover given result }
{
    match close_kept(alloc, kept) {
        Ok(remains) => Closing::Closed(remains, account),
        Err(kept) => Closing::Kept(kept, account),
    }
}

/// Closes the service in `kept`, which was not closed since memory ran out, with all its callers. `Ok` is what the closed service leaves. `Err`
/// means that memory ran out again, and hands all back as it was.
pub fn close_kept<O: Object>(alloc: Global, kept: Kept<O>) -> Result<Remains, Kept<O>>
    requires { AreSeats kept.service (seats_of kept.callers.items) }
    ensures { MatchResult result (IsClosedWith O.line_count O.lawful O.step O.only_reads kept.service (seats_of kept.callers.items)) (λ back. back ≡ kept) }
{
    let Kept { service, callers } = kept;
    // a running table is within its limits; what such a table leaves when it is closed is what a linearizable object leaves
    let _ = service.lines();
    service.close(alloc, callers)
}
