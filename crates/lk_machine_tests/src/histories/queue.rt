// Histories of a queued spinlock.

pub const HISTORIES: &str = "\
given 0
# A release by a waiter that only waits.
1.0 arrive 0, 1.0 release 0: NotHolder 1.0
# A take beside the holder.
0.0 take 0 fast, 1.0 take 0 pending: Beside 0.0 1.0
# A second place in the queue.
1.0 arrive 0, 2.0 arrive 0, 1.0 arrive 0: Twice 1.0
# A holder joins the queue.
1.0 take 0 try, 1.0 arrive 0: Twice 1.0
# A waiter of the queue takes past it.
1.0 arrive 0, 1.0 take 0 pending: Twice 1.0
# Two wait.
1.0 arrive 0, 2.0 arrive 0: lawful
# The second of them takes.
1.0 arrive 0, 2.0 arrive 0, 2.0 take 0 head: WrongHead 1.0 2.0
# Outside `cna` nobody is moved aside.
0.0 arrive 0, 1.0 arrive 0, 2.0 arrive 0, 0.0 take 0 head, 0.0 pass 0 2.0 moved 1: WrongMove 1 0
# The lead goes past the next.
0.0 arrive 0, 1.0 arrive 0, 2.0 arrive 0, 0.0 take 0 head, 0.0 pass 0 2.0: WrongNext 1.0 2.0
# The lead goes to the next, which takes and releases.
0.0 arrive 0, 1.0 arrive 0, 0.0 take 0 head, 0.0 pass 0 1.0, 0.0 release 0, 1.0 take 0 sole, 1.0 release 0: lawful";
