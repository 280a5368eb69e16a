// Traces in mode `virt`. Each stands before its transcript.

pub const VIRT: &str = "\
# No processor has a program, and the schedule is empty.
qtrace 1
mode virt
go
end
---
end 0
---
# Acts that change nothing.
qtrace 1
mode virt
cpus 1
lock 0 spin
prog 0 lock 0 unlock 0
go
pre 0
step 0 3
res 0
res 0
int 0
nudge 0
step 0 5
end
---
9 0.0 take 0 fast
10 0.0 release 0
end 13
---
# A try fails beside a holder, which an interrupt meets; a preempted processor stands still; what is idle tells nothing.
qtrace 1
mode virt
cpus 3
sockets 0 0 1
lock 0 spin
lock 1 spin
prog 0 lock 0 unlock 0
prog 1 try 0 lock 1 unlock 1 unlock 0 lock 1 unlock 1
prog 2 lock 0 unlock 0
irq 0 lock 1 unlock 1
go
step 0 1
pre 1
step 1 1
res 1
step 1 2
int 0
int 0
step 0 2
step 1 1
step 0 2
nudge 0
step 0 3
step 1 1
end
---
1 0.0 take 0 fast
5 1.0 miss 0
6 1.0 take 1 fast
7 0.1 int
11 1.0 release 1
13 0.1 take 1 virt
15 0.1 release 1
16 0.0 release 0
end 18
";
