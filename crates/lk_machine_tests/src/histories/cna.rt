// Histories in mode `cna`. The processors 3 and 5 stand on another socket than the rest.

pub const HISTORIES: &str = "\
# The front, one of the other socket, one of the front's, and one of the other.
given 65535: 2.0 arrive 0, 3.0 arrive 0, 4.0 arrive 0, 5.0 arrive 0, 2.0 take 0 head
# The one of the other socket goes aside.
2.0 pass 0 4.0 moved 1: lawful
# It may also lead.
2.0 pass 0 3.0: lawful
# Only one may go aside before the one of the front's socket.
2.0 pass 0 5.0 moved 2: WrongMove 2 1
2.0 pass 0 5.0 moved 3: WrongMove 3 1
# Behind the one that goes aside another than the next leads.
2.0 pass 0 5.0 moved 1: WrongNext 4.0 5.0
2.0 pass 0 3.0 moved 1: WrongNext 4.0 3.0
# The front and two of the other socket: all but the last may go aside.
given 65535: 2.0 arrive 0, 3.0 arrive 0, 5.0 arrive 0, 2.0 take 0 head
2.0 pass 0 5.0 moved 1: lawful
2.0 pass 0 0.0 moved 2: WrongMove 2 1
# The front and one of the other socket: the last one never may.
given 65535: 2.0 arrive 0, 3.0 arrive 0, 2.0 take 0 head
2.0 pass 0 3.0: lawful
2.0 pass 0 3.0 moved 1: WrongMove 1 0
# One of the front's socket stands before one of the other: neither may go aside.
given 65535: 2.0 arrive 0, 4.0 arrive 0, 3.0 arrive 0, 5.0 arrive 0, 2.0 take 0 head
2.0 pass 0 3.0 moved 1: WrongMove 1 0
# Processor 3 stands aside, 4 leads and holds, and 5 and 0 wait behind it.
given 65535: 2.0 arrive 0, 3.0 arrive 0, 4.0 arrive 0, 5.0 arrive 0, 0.0 arrive 0, 2.0 take 0 head, 2.0 pass 0 4.0 moved 1, 2.0 release 0, 4.0 take 0 head
4.0 flush 0: lawful
# Who stands aside stands in a queue.
3.0 arrive 0: Twice 3.0
# Once the second queue has returned, its first waiter is the next.
given 65535: 2.0 arrive 0, 3.0 arrive 0, 4.0 arrive 0, 5.0 arrive 0, 2.0 take 0 head, 2.0 pass 0 4.0 moved 1, 2.0 release 0, 4.0 take 0 head, 4.0 flush 0
4.0 pass 0 3.0: lawful
4.0 pass 0 5.0: WrongNext 3.0 5.0
# Nobody waits behind the one that leads: the second queue becomes the rest of the main one.
given 65535: 2.0 arrive 0, 3.0 arrive 0, 4.0 arrive 0, 2.0 take 0 head, 2.0 pass 0 4.0 moved 1, 2.0 release 0, 4.0 take 0 head
4.0 promote 0: lawful
# It is that now.
given 65535: 2.0 arrive 0, 3.0 arrive 0, 4.0 arrive 0, 2.0 take 0 head, 2.0 pass 0 4.0 moved 1, 2.0 release 0, 4.0 take 0 head, 4.0 promote 0
4.0 pass 0 3.0: lawful
# The front has handed on to 4 past 3, and is the front no longer.
given 65535: 2.0 arrive 0, 3.0 arrive 0, 4.0 arrive 0, 5.0 arrive 0, 2.0 take 0 head, 2.0 pass 0 4.0 moved 1
2.0 flush 0: WrongHead 4.0 2.0
# It has released: the new front does not hold the lock.
given 65535: 2.0 arrive 0, 3.0 arrive 0, 4.0 arrive 0, 5.0 arrive 0, 2.0 take 0 head, 2.0 pass 0 4.0 moved 1, 2.0 release 0
4.0 flush 0: NotHolder 4.0
4.0 promote 0: NotHolder 4.0
# Who stands aside does not lead.
3.0 take 0 head: WrongHead 4.0 3.0
# Two of the other socket before two of the front's. With threshold 0 nobody may go aside; the earliest that does is named.
given 0: 2.0 arrive 0, 3.0 arrive 0, 5.0 arrive 0, 4.0 arrive 0, 0.0 arrive 0, 2.0 take 0 head
2.0 pass 0 3.0: lawful
2.0 pass 0 5.0 moved 1: OverThreshold 3.0 1
2.0 pass 0 4.0 moved 2: OverThreshold 3.0 1
# With threshold 1 the handover of the move may pass them by, and no other.
given 1: 2.0 arrive 0, 3.0 arrive 0, 5.0 arrive 0, 4.0 arrive 0, 0.0 arrive 0, 2.0 take 0 head
2.0 pass 0 4.0 moved 2: lawful
# They stand aside, and 4 leads and holds. A second one is too many for both: the earliest is named.
given 1: 2.0 arrive 0, 3.0 arrive 0, 5.0 arrive 0, 4.0 arrive 0, 0.0 arrive 0, 2.0 take 0 head, 2.0 pass 0 4.0 moved 2, 2.0 release 0, 4.0 take 0 head
4.0 pass 0 0.0: OverThreshold 3.0 2
# It is too many for the earlier alone.
given 1: 2.0 arrive 0, 3.0 arrive 0, 4.0 arrive 0, 5.0 arrive 0, 0.0 arrive 0, 2.0 take 0 head, 2.0 pass 0 4.0 moved 1, 2.0 release 0, 4.0 take 0 head
4.0 pass 0 0.0 moved 1: OverThreshold 3.0 2
4.0 pass 0 5.0: OverThreshold 3.0 2
# With threshold 2 it is lawful.
given 2: 2.0 arrive 0, 3.0 arrive 0, 5.0 arrive 0, 4.0 arrive 0, 0.0 arrive 0, 2.0 take 0 head, 2.0 pass 0 4.0 moved 2, 2.0 release 0, 4.0 take 0 head
4.0 pass 0 0.0: lawful
given 2: 2.0 arrive 0, 3.0 arrive 0, 4.0 arrive 0, 5.0 arrive 0, 0.0 arrive 0, 2.0 take 0 head, 2.0 pass 0 4.0 moved 1, 2.0 release 0, 4.0 take 0 head
4.0 pass 0 0.0 moved 1: lawful
4.0 pass 0 5.0: lawful";

/// In the second format, who waits in an interrupt stays: on processor 3 or 5, of the other socket.
pub const INTERRUPTS: &str = "\
given 65535: 2.0 arrive 0, 3.1 arrive 0, 4.0 arrive 0, 2.0 take 0 head
2.0 pass 0 3.1: lawful
2.0 pass 0 4.0 moved 1: WrongMove 1 0
# A task of the other socket goes aside, and the one behind it, in an interrupt, does not.
given 65535: 2.0 arrive 0, 3.0 arrive 0, 5.1 arrive 0, 4.0 arrive 0, 2.0 take 0 head
2.0 pass 0 5.1 moved 1: lawful
2.0 pass 0 4.0 moved 2: WrongMove 2 1
# A front in an interrupt moves a task of another socket.
given 65535: 2.1 arrive 0, 3.0 arrive 0, 4.0 arrive 0, 2.1 take 0 head
2.1 pass 0 4.0 moved 1: lawful";

/// In the first format it goes aside as a task does.
pub const IN_FORMAT_ONE: &str = "\
given 65535: 2.0 arrive 0, 3.1 arrive 0, 4.0 arrive 0, 2.0 take 0 head
2.0 pass 0 4.0 moved 1: lawful";
