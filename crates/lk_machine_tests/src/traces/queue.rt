// Traces of the queued spinlock. Each stands before its transcript.

pub const QUEUE: &str = "\
# A waiter takes the lock by the pending bit.
qtrace 1
mode native
cpus 2
lock 0 spin
prog 0 lock 0 unlock 0
prog 1 lock 0 unlock 0
go
step 0 1
step 1 4
step 0 1
step 1 3
end
---
1 0.0 take 0 fast
6 0.0 release 0
8 1.0 take 0 pending
9 1.0 release 0
end 9
lock_pending 1
---
# A locker meets the pending bit alone.
qtrace 1
mode native
cpus 3
lock 0 spin
prog 0 lock 0 unlock 0
prog 1 lock 0 unlock 0
prog 2 lock 0 unlock 0
go
step 0 1
step 1 2
step 0 1
step 2 5
step 1 3
step 2 3
end
---
1 0.0 take 0 fast
4 0.0 release 0
9 2.0 arrive 0
11 1.0 take 0 pending
12 1.0 release 0
14 2.0 take 0 sole
15 2.0 release 0
end 15
lock_pending 1
lock_slowpath 1
---
# A pending bit is set on a queue, and taken back.
qtrace 1
mode native
cpus 4
lock 0 spin
prog 0 lock 0 unlock 0
prog 1 lock 0 unlock 0
prog 2 lock 0 unlock 0
prog 3 lock 0 unlock 0
go
step 0 1
step 3 1
step 1 2
step 2 4
step 0 1
step 1 3
step 2 1
step 3 1
step 2 2
step 3 5
step 2 3
step 3 4
end
---
1 0.0 take 0 fast
8 2.0 arrive 0
9 0.0 release 0
11 1.0 take 0 pending
12 1.0 release 0
16 2.0 take 0 head
20 3.0 arrive 0
23 2.0 pass 0 3.0
24 2.0 release 0
27 3.0 take 0 sole
28 3.0 release 0
end 28
lock_pending 1
lock_slowpath 2
---
# Links are stored in reverse order.
qtrace 1
mode native
cpus 6
lock 0 spin
prog 0 lock 0 unlock 0
prog 1 lock 0 unlock 0
prog 2 lock 0 unlock 0
prog 3 lock 0 unlock 0
prog 4 lock 0 unlock 0
prog 5 lock 0 unlock 0
go
step 0 1
step 1 2
step 2 4
step 3 4
step 4 4
step 5 4
step 5 1
step 4 1
step 3 1
step 0 1
step 1 3
step 2 5
step 3 6
step 4 6
step 5 4
end
---
1 0.0 take 0 fast
7 2.0 arrive 0
11 3.0 arrive 0
15 4.0 arrive 0
19 5.0 arrive 0
23 0.0 release 0
25 1.0 take 0 pending
26 1.0 release 0
28 2.0 take 0 head
30 2.0 pass 0 3.0
31 2.0 release 0
34 3.0 take 0 head
36 3.0 pass 0 4.0
37 3.0 release 0
40 4.0 take 0 head
42 4.0 pass 0 5.0
43 4.0 release 0
46 5.0 take 0 sole
47 5.0 release 0
end 47
lock_pending 1
lock_slowpath 4
---
# Five nested contexts, the last without a node.
qtrace 1
mode native
cpus 7
lock 0 spin
lock 1 spin
lock 2 spin
lock 3 spin
lock 4 spin
prog 0 lock 0 unlock 0
prog 1 lock 0 lock 1 lock 2 lock 3 lock 4 unlock 4 unlock 3 unlock 2 unlock 1 unlock 0
prog 2 lock 0 unlock 0
prog 3 lock 1 unlock 1
prog 4 lock 2 unlock 2
prog 5 lock 3 unlock 3
prog 6 lock 4 unlock 4
irq 0 lock 1 unlock 1
irq 0 lock 2 unlock 2
irq 0 lock 3 unlock 3
irq 0 lock 4 unlock 4
go
step 1 5
step 2 2
step 3 2
step 4 2
step 5 2
step 6 2
step 0 4
int 0
step 0 4
int 0
step 0 4
int 0
step 0 4
int 0
step 0 2
step 1 1
step 6 3
step 0 3
step 1 1
step 5 3
step 0 3
step 1 1
step 4 3
step 0 3
step 1 1
step 3 3
step 0 3
step 1 1
step 2 3
step 0 3
end
---
1 1.0 take 0 fast
2 1.0 take 1 fast
3 1.0 take 2 fast
4 1.0 take 3 fast
5 1.0 take 4 fast
19 0.0 arrive 0
20 0.1 int
24 0.1 arrive 1
25 0.2 int
29 0.2 arrive 2
30 0.3 int
34 0.3 arrive 3
35 0.4 int
38 1.0 release 4
40 6.0 take 4 pending
41 6.0 release 4
43 0.4 take 4 nonode
44 0.4 release 4
45 1.0 release 3
47 5.0 take 3 pending
48 5.0 release 3
50 0.3 take 3 sole
51 0.3 release 3
52 1.0 release 2
54 4.0 take 2 pending
55 4.0 release 2
57 0.2 take 2 sole
58 0.2 release 2
59 1.0 release 1
61 3.0 take 1 pending
62 3.0 release 1
64 0.1 take 1 sole
65 0.1 release 1
66 1.0 release 0
68 2.0 take 0 pending
69 2.0 release 0
71 0.0 take 0 sole
72 0.0 release 0
end 72
lock_pending 5
lock_slowpath 5
lock_use_node2 1
lock_use_node3 1
lock_use_node4 1
lock_no_node 1
---
# A try fails, and is skipped whole.
qtrace 1
mode native
cpus 2
lock 0 spin
lock 1 spin
prog 0 lock 0 unlock 0
prog 1 try 0 lock 1 unlock 1 unlock 0 lock 1 unlock 1
go
step 0 1
step 1 3
step 0 1
end
---
1 0.0 take 0 fast
2 1.0 miss 0
3 1.0 take 1 fast
4 1.0 release 1
5 0.0 release 0
end 5
---
# The last of 1,024 processors takes the lock and releases it, in format 2.
qtrace 2
mode native
cpus 1024
lock 0 spin
prog 1023 lock 0 unlock 0
go
step 1023 2
end
---
1 1023.0 take 0 fast
2 1023.0 release 0
end 2
---
# Waiters whose processors have no place in a narrow trace, by the pending bit and by the queue.
qtrace 2
mode native
cpus 1024
lock 0 spin
prog 1021 lock 0 unlock 0
prog 1022 lock 0 unlock 0
prog 1023 lock 0 unlock 0
go
step 1023 1
step 1022 2
step 1021 6
step 1023 1
step 1022 3
step 1021 6
end
---
1 1023.0 take 0 fast
7 1021.0 arrive 0
10 1023.0 release 0
12 1022.0 take 0 pending
13 1022.0 release 0
15 1021.0 take 0 sole
16 1021.0 release 0
end 19
lock_pending 1
lock_slowpath 1
";
