//! What is proved of every run: each theorem is the contract of a function that does nothing, so that it is listed with the
//! functions and cannot be lost.
#![tactic(auto)]

ghost use Rattle.pmc330_model.specs.Sentences.{EveryCall1, EveryList1, EveryNew1, EveryAnswer, EveryList3, EveryOpening, EverySchedule, EveryStart, EveryTick, EveryPair, EveryAdvances, EveryNextStore, EveryLastStore, EveryLook, EveryLookShown, EverySlotLogged, EveryMailboxRead};
ghost use Rattle.pmc330_model.specs.ChannelWait.{EveryWait, EverySlotWait, EveryBurstWait, ShortMisses, NoShorterWait};
ghost use Rattle.pmc330_model.specs.Bench.{BenchCases};

/// Sentence 1 on every board: a call is refused exactly if one of its questions is answered with no. It then gives the
/// number of the first such question, value 0 and the board that was handed in.
pub fn sentence1()
    ensures { EveryCall1 }
{}

/// The same of every next call after every list of calls, where the questions are asked of the logbook of the list.
pub fn sentence1_after()
    ensures { EveryList1 }
{}

/// A new board is of any range from 0 to 3. Any other is refused with 14 and a new board of range 0.
pub fn new_boards()
    ensures { EveryNew1 }
{}

/// Sentence 2: number and value of every call of every list are those that the logbook defines.
pub fn answers_agree()
    ensures { EveryAnswer }
{}

/// Sentence 3: after every list of calls each mailbox, each New and Missed bit, the pending bit and the request line are
/// what the logbook of the list says.
pub fn sentence3()
    ensures { EveryList3 }
{}

/// The stores are those of the schedule and no others, and cycles begin and end when the data sheet says so: of the logbook
/// of every list of calls.
pub fn schedule()
    ensures { EverySchedule }
{}

/// After a start the board shows no New and no Missed bit, in any slot.
pub fn starts_clear()
    ensures { EveryStart }
{}

/// The logbook of no calls is that of a new board: no cycle, the event reset, and all else 0 but the range.
pub fn opened_empty()
    ensures { EveryOpening }
{}

/// An accepted advance of n counts as n ticks, a refused call as none.
pub fn ticks_counted()
    ensures { EveryTick }
{}

/// Two advances whose sum is accepted are accepted, and end where the one of their sum does, with as many stores.
pub fn advance_joins()
    ensures { EveryPair }
{}

/// The same of any list of advances whose sum is accepted: one long advance ends where many short ones do.
pub fn advances_join()
    ensures { EveryAdvances }
{}

/// On every board the next store is at the tick that is stated: fewer ticks make none, exactly so many make one; where 0 is
/// stated, no advance makes any.
pub fn next_stores()
    ensures { EveryNextStore }
{}

/// After every list of calls, where 0 is stated no number of advances makes a store.
pub fn last_stores()
    ensures { EveryLastStore }
{}

/// A look at any slot of any board changes nothing.
pub fn looks_change_nothing()
    ensures { EveryLook }
{}

/// After every list of calls a look gives the code, New and Missed that the logbook says.
pub fn looks_show()
    ensures { EveryLookShown }
{}

/// In the logbook a look is no event, and a clear is what a read of that slot's mailbox is.
pub fn slots_logged()
    ensures { EverySlotLogged }
{}

/// An accepted mailbox read, of any width and any board, leaves the board that a look and then a clear leave.
pub fn mailbox_reads()
    ensures { EveryMailboxRead }
{}

/// In a continuous mode every span of one pass plus 64 ticks has a store of every scanned channel.
pub fn waiting_time()
    ensures { EveryWait }
{}

/// A slot waits as long as its channel; if differential, two passes plus 64 ticks.
pub fn slot_waiting_time()
    ensures { EverySlotWait }
{}

/// In burst continuous one pass alone has a store of every scanned channel.
pub fn burst_waiting_time()
    ensures { EveryBurstWait }
{}

/// In uniform continuous one pass plus 63 ticks can miss a channel: a list of calls that shows it.
pub fn short_misses()
    ensures { ShortMisses }
{}

/// So no figure below 64 would hold of both continuous modes.
pub fn no_shorter_wait()
    ensures { NoShorterWait }
{}

/// Cases worked by hand, computed by the definitions: one table with one claim.
pub fn bench_cases()
    ensures { BenchCases }
{}
