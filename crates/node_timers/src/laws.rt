ghost use Rattle.node_timers.specs.Laws.{AtMostAtOnce, FallsBack, PutOffOnce, TimeStands, TimerFiresOnce, WaitsScale, WorkFiresOnce};

/// At one time no timer fires twice, and work isn't dispatched twice: a caller that asks until nothing is due comes to an
/// end. This function is the law, and does nothing.
pub fn fires_once()
    // Promise: A deadline that is set now has not come, and work that was dispatched now is not due: nothing fires twice at one
    // time.
    ensures timer { TimerFiresOnce }
    ensures work { WorkFiresOnce }
{}

/// A clock may fall back to any time: all that is waited for is moved with it, and lasts as long as it would have. This function is the law,
/// and does nothing.
pub fn falls_back()
    // Promise: The same time told once more changes nothing; a clock that falls back moves what is waited for, and it lasts as long
    // as it would have.
    ensures stands { TimeStands }
    ensures moved { FallsBack }
{}

/// A merge is put off for another node's turn once. This function is the law, and does nothing.
pub fn put_off_once()
    // Promise: A merge waits twice as long for a greater node that looks for coordinators, and no longer, however often it looks.
    // Refuses: merge_put_off_again_and_again.
    ensures { PutOffOnce }
{}

/// Each wait is so many round trips, whatever one takes. This function is the law, and does nothing.
pub fn scales()
    // Promise: Each wait, its jitter, a turn and the longest raise that is allowed for are so many round trips, whatever one takes.
    // Refuses: jobs_rest_by_the_millisecond.
    ensures { WaitsScale }
{}

/// However many messages are waited for, few are sent again at one time. This function is the law, and does nothing.
pub fn sent_again_seldom()
    ensures { AtMostAtOnce }
{}
