// Traces in mode `pv`. Each stands before its transcript.

pub const PV: &str = "\
# A waiter halts, is handed the lead by a holder that marks it, and is kicked by the release.
qtrace 1
mode pv
cpus 3
spins 1
lock 0 spin
prog 0 lock 0 unlock 0
prog 1 lock 0 unlock 0
prog 2 lock 0 unlock 0
go
step 0 1
step 1 7
step 2 11
step 0 1
step 1 11
step 2 9
end
---
1 0.0 take 0 fast
5 1.0 arrive 0
12 2.0 arrive 0
19 2.0 halt 0
20 0.0 release 0
21 1.0 take 0 head
24 1.0 pass 0 2.0
30 1.0 release 0 owing 2
31 1.0 kick 2
32 2.0 wake 0
38 2.0 take 0 head
39 2.0 leave 0
40 2.0 release 0
end 40
lock_slowpath 2
pv_wait_node 1
pv_kick_unlock 1
---
# A front halts; the lock is released with a kick owed, stolen before the kick, and taken by the front in the end.
qtrace 1
mode pv
cpus 3
spins 1
lock 0 spin
prog 0 lock 0 unlock 0
prog 1 lock 0 unlock 0
prog 2 lock 0 unlock 0
go
step 0 1
step 1 14
step 0 3
step 2 4
step 0 1
step 1 8
step 2 1
step 1 4
end
---
1 0.0 take 0 fast
5 1.0 arrive 0
15 1.0 halt 0
18 0.0 release 0 owing 1
22 2.0 take 0 steal
23 0.0 kick 1
24 1.0 wake 0
32 2.0 release 0
34 1.0 take 0 head
35 1.0 leave 0
36 1.0 release 0
end 36
lock_slowpath 1
pv_lock_stealing 1
pv_wait_head 2
pv_kick_unlock 1
---
# A nudge ends the halt of a front, which halts again, and is kicked by the release.
qtrace 1
mode pv
cpus 2
spins 1
lock 0 spin
prog 0 lock 0 unlock 0
prog 1 lock 0 unlock 0
go
step 0 1
step 1 14
nudge 1
step 1 7
step 0 4
step 1 6
end
---
1 0.0 take 0 fast
5 1.0 arrive 0
15 1.0 halt 0
16 1.0 nudge
23 1.0 halt 0
26 0.0 release 0 owing 1
27 0.0 kick 1
28 1.0 wake 0
31 1.0 take 0 head
32 1.0 leave 0
33 1.0 release 0
end 33
lock_slowpath 1
pv_wait_head 2
pv_kick_unlock 1
";
