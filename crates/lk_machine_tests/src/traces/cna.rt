// Traces in mode `cna`. The waiters come in the same order in each. Each stands before its
// transcript.

pub const CNA: &str = "\
# A waiter of the other socket is passed by once; at the threshold the second queue returns.
qtrace 1
mode cna
cpus 6
sockets 0 0 0 1 0 1
threshold 1
lock 0 spin
prog 0 lock 0 unlock 0
prog 1 lock 0 unlock 0
prog 2 lock 0 unlock 0
prog 3 lock 0 unlock 0
prog 4 lock 0 unlock 0
prog 5 lock 0 unlock 0
go
step 0 1
step 1 2
step 2 4
step 3 5
step 4 5
step 5 5
step 0 1
step 1 3
step 2 9
step 4 9
step 3 7
step 5 4
end
---
1 0.0 take 0 fast
7 2.0 arrive 0
11 3.0 arrive 0
16 4.0 arrive 0
21 5.0 arrive 0
23 0.0 release 0
25 1.0 take 0 pending
26 1.0 release 0
28 2.0 take 0 head
34 2.0 pass 0 4.0 moved 1
35 2.0 release 0
38 4.0 take 0 head
41 4.0 flush 0
43 4.0 pass 0 3.0
44 4.0 release 0
47 3.0 take 0 head
50 3.0 pass 0 5.0
51 3.0 release 0
54 5.0 take 0 sole
55 5.0 release 0
end 55
lock_pending 1
lock_slowpath 4
---
# All stand on one socket: nobody is passed by.
qtrace 1
mode cna
cpus 6
sockets 0 0 0 0 0 0
threshold 1
lock 0 spin
prog 0 lock 0 unlock 0
prog 1 lock 0 unlock 0
prog 2 lock 0 unlock 0
prog 3 lock 0 unlock 0
prog 4 lock 0 unlock 0
prog 5 lock 0 unlock 0
go
step 0 1
step 1 2
step 2 4
step 3 5
step 4 5
step 5 5
step 0 1
step 1 3
step 2 6
step 3 7
step 4 7
step 5 4
end
---
1 0.0 take 0 fast
7 2.0 arrive 0
11 3.0 arrive 0
16 4.0 arrive 0
21 5.0 arrive 0
23 0.0 release 0
25 1.0 take 0 pending
26 1.0 release 0
28 2.0 take 0 head
31 2.0 pass 0 3.0
32 2.0 release 0
35 3.0 take 0 head
38 3.0 pass 0 4.0
39 3.0 release 0
42 4.0 take 0 head
45 4.0 pass 0 5.0
46 4.0 release 0
49 5.0 take 0 sole
50 5.0 release 0
end 50
lock_pending 1
lock_slowpath 4
---
# With threshold 0 nobody is passed by.
qtrace 1
mode cna
cpus 6
sockets 0 0 0 1 0 1
threshold 0
lock 0 spin
prog 0 lock 0 unlock 0
prog 1 lock 0 unlock 0
prog 2 lock 0 unlock 0
prog 3 lock 0 unlock 0
prog 4 lock 0 unlock 0
prog 5 lock 0 unlock 0
go
step 0 1
step 1 2
step 2 4
step 3 5
step 4 5
step 5 5
step 0 1
step 1 3
step 2 6
step 3 7
step 4 7
step 5 4
end
---
1 0.0 take 0 fast
7 2.0 arrive 0
11 3.0 arrive 0
16 4.0 arrive 0
21 5.0 arrive 0
23 0.0 release 0
25 1.0 take 0 pending
26 1.0 release 0
28 2.0 take 0 head
31 2.0 pass 0 3.0
32 2.0 release 0
35 3.0 take 0 head
38 3.0 pass 0 4.0
39 3.0 release 0
42 4.0 take 0 head
45 4.0 pass 0 5.0
46 4.0 release 0
49 5.0 take 0 sole
50 5.0 release 0
end 50
lock_pending 1
lock_slowpath 4
---
# Nobody waits behind the front: the second queue becomes the rest of the main one.
qtrace 1
mode cna
cpus 5
sockets 0 0 0 1 0
lock 0 spin
prog 0 lock 0 unlock 0
prog 1 lock 0 unlock 0
prog 2 lock 0 unlock 0
prog 3 lock 0 unlock 0
prog 4 lock 0 unlock 0
go
step 0 1
step 1 2
step 2 4
step 3 5
step 4 5
step 0 1
step 1 3
step 2 9
step 4 9
step 3 4
end
---
1 0.0 take 0 fast
7 2.0 arrive 0
11 3.0 arrive 0
16 4.0 arrive 0
18 0.0 release 0
20 1.0 take 0 pending
21 1.0 release 0
23 2.0 take 0 head
29 2.0 pass 0 4.0 moved 1
30 2.0 release 0
33 4.0 take 0 head
36 4.0 promote 0
38 4.0 pass 0 3.0
39 4.0 release 0
42 3.0 take 0 sole
43 3.0 release 0
end 43
lock_pending 1
lock_slowpath 3
---
# One more of the other socket arrives while the front looks for the next: the second queue returns before it.
qtrace 1
mode cna
cpus 6
sockets 0 0 0 1 0 1
lock 0 spin
prog 0 lock 0 unlock 0
prog 1 lock 0 unlock 0
prog 2 lock 0 unlock 0
prog 3 lock 0 unlock 0
prog 4 lock 0 unlock 0
prog 5 lock 0 unlock 0
go
step 0 1
step 1 2
step 2 4
step 3 5
step 4 5
step 0 1
step 1 3
step 2 9
step 4 5
step 5 5
step 4 8
step 3 7
step 5 4
end
---
1 0.0 take 0 fast
7 2.0 arrive 0
11 3.0 arrive 0
16 4.0 arrive 0
18 0.0 release 0
20 1.0 take 0 pending
21 1.0 release 0
23 2.0 take 0 head
29 2.0 pass 0 4.0 moved 1
30 2.0 release 0
33 4.0 take 0 head
39 5.0 arrive 0
45 4.0 flush 0
47 4.0 pass 0 3.0
48 4.0 release 0
51 3.0 take 0 head
54 3.0 pass 0 5.0
55 3.0 release 0
58 5.0 take 0 sole
59 5.0 release 0
end 59
lock_pending 1
lock_slowpath 4
---
# Format 2: a waiter of an interrupt on the other socket is local, and gets the lead.
qtrace 2
mode cna
cpus 5
sockets 0 0 0 1 0
lock 0 spin
prog 0 lock 0 unlock 0
prog 1 lock 0 unlock 0
prog 2 lock 0 unlock 0
prog 4 lock 0 unlock 0
irq 3 lock 0 unlock 0
go
step 0 1
step 1 2
step 2 4
int 3
step 3 5
step 4 5
step 0 1
step 1 3
step 2 6
step 3 8
step 4 4
end
---
1 0.0 take 0 fast
7 2.0 arrive 0
8 3.1 int
12 3.1 arrive 0
17 4.0 arrive 0
19 0.0 release 0
21 1.0 take 0 pending
22 1.0 release 0
24 2.0 take 0 head
27 2.0 pass 0 3.1
28 2.0 release 0
31 3.1 take 0 head
35 3.1 pass 0 4.0
36 3.1 release 0
39 4.0 take 0 sole
40 4.0 release 0
end 40
lock_pending 1
lock_slowpath 3
---
# Format 1: the same waiter is moved aside, and comes back by a promotion.
qtrace 1
mode cna
cpus 5
sockets 0 0 0 1 0
lock 0 spin
prog 0 lock 0 unlock 0
prog 1 lock 0 unlock 0
prog 2 lock 0 unlock 0
prog 4 lock 0 unlock 0
irq 3 lock 0 unlock 0
go
step 0 1
step 1 2
step 2 4
int 3
step 3 5
step 4 5
step 0 1
step 1 3
step 2 9
step 4 9
step 3 4
end
---
1 0.0 take 0 fast
7 2.0 arrive 0
8 3.1 int
12 3.1 arrive 0
17 4.0 arrive 0
19 0.0 release 0
21 1.0 take 0 pending
22 1.0 release 0
24 2.0 take 0 head
30 2.0 pass 0 4.0 moved 1
31 2.0 release 0
34 4.0 take 0 head
37 4.0 promote 0
39 4.0 pass 0 3.1
40 4.0 release 0
43 3.1 take 0 sole
44 3.1 release 0
end 44
lock_pending 1
lock_slowpath 3
";
