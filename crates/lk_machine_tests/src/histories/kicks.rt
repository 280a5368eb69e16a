// Histories of halts and kicks.

pub const HISTORIES: &str = "\
given 0
# A front sleeps while the lock is held.
0.0 take 0 fast, 1.0 arrive 0, 1.0 halt 0: lawful
# The lock is released, and nobody is owed a kick.
0.0 take 0 fast, 1.0 arrive 0, 1.0 halt 0, 0.0 release 0: NoKick 1.0
# Another processor is owed it.
0.0 take 0 fast, 1.0 arrive 0, 1.0 halt 0, 0.0 release 0 owing 2: NoKick 1.0
# The front's processor is owed it, is kicked, and wakes.
0.0 take 0 fast, 1.0 arrive 0, 1.0 halt 0, 0.0 release 0 owing 1, 0.0 kick 1, 1.0 wake 0: lawful
# It halts again, and the kick is used up.
0.0 take 0 fast, 1.0 arrive 0, 1.0 halt 0, 0.0 release 0 owing 1, 0.0 kick 1, 1.0 wake 0, 1.0 halt 0: NoKick 1.0
# A halt that was ended by a nudge leaves the kick for the next one.
0.0 take 0 fast, 1.0 arrive 0, 1.0 halt 0, 0.0 release 0 owing 1, 0.0 kick 1, 1.0 nudge, 1.0 halt 0: lawful
# An interrupt ends a halt too.
0.0 take 0 fast, 1.0 arrive 0, 1.0 halt 0, 1.1 int, 0.0 release 0: lawful
# A waiter behind the front sleeps without a kick.
0.0 take 0 fast, 2.0 arrive 0, 1.0 arrive 0, 1.0 halt 0, 0.0 release 0: lawful
# It becomes the front of a lock that is held, and is left asleep by the release.
0.0 take 0 fast, 2.0 arrive 0, 1.0 arrive 0, 1.0 halt 0, 0.0 release 0, 2.0 take 0 head, 2.0 pass 0 1.0, 2.0 release 0: NoKick 1.0
# A front that is awake is owed nothing.
0.0 take 0 fast, 1.0 arrive 0, 0.0 release 0: lawful";
