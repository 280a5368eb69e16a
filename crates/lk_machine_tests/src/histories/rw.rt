// Histories of a reader-writer lock.

pub const HISTORIES: &str = "\
given 65535
# Two readers beside each other, and a writer after them.
0.0 rtake 0 fast, 1.0 rtake 0 fast, 0.0 rrelease 0, 1.0 rrelease 0, 2.0 wtake 0 queued, 2.0 wrelease 0: lawful
# A reader, and one in an interrupt of its processor.
1.0 rtake 0 fast, 1.1 rtake 0 irq: lawful
# A writer after the other has released.
1.0 wtake 0 queued, 1.0 wrelease 0, 2.0 wtake 0 queued: lawful
# A writer beside two readers: the earliest holder is named.
2.0 rtake 0 fast, 0.0 rtake 0 fast, 1.0 wtake 0 queued: Beside 2.0 1.0
# The earliest has released: the other is the earliest now.
2.0 rtake 0 fast, 0.0 rtake 0 fast, 2.0 rrelease 0, 1.0 wtake 0 queued: Beside 0.0 1.0
# A reader beside a writer.
1.0 wtake 0 queued, 0.0 rtake 0 fast: Beside 1.0 0.0
# A reader in an interrupt of the writer's processor.
1.0 wtake 0 queued, 1.1 rtake 0 irq: Beside 1.0 1.1
# A writer beside a writer.
1.0 wtake 0 queued, 2.0 wtake 0 queued: Beside 1.0 2.0
# A reader that holds takes again, beside an earlier one: it names itself.
0.0 rtake 0 fast, 1.0 rtake 0 fast, 1.0 rtake 0 fast: Beside 1.0 1.0
# A reader becomes a writer.
1.0 rtake 0 fast, 1.0 wtake 0 queued: Beside 1.0 1.0
# A writer releases as a reader does.
1.0 wtake 0 queued, 1.0 rrelease 0: NotHolder 1.0
# A reader releases as a writer does.
1.0 rtake 0 fast, 1.0 wrelease 0: NotHolder 1.0
# A writer releases as the holder of a spinlock does.
1.0 wtake 0 queued, 1.0 release 0: NotHolder 1.0
# A second release.
1.0 rtake 0 fast, 1.0 rrelease 0, 1.0 rrelease 0: NotHolder 1.0
# A release by another reader.
0.0 rtake 0 fast, 1.0 rrelease 0: NotHolder 1.0
# A try that fails says nothing of holders.
1.0 wtake 0 queued, 2.0 miss 0, 1.0 wrelease 0: lawful
# The wait lock is another lock.
0.0 rtake 0 fast, 1.0 take 0w fast, 0.0 rrelease 0, 1.0 wtake 0 queued: lawful";
