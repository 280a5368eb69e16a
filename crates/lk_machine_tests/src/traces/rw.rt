// Traces of reader-writer locks. Each stands before its transcript.

pub const RW: &str = "\
# A writer waits for a reader, a reader in an interrupt passes it, and another reader waits behind it.
qtrace 1
mode native
cpus 4
lock 0 rw
prog 0 read 0 runlock 0
prog 1 write 0 wunlock 0
prog 2 read 0 runlock 0
irq 3 read 0 runlock 0
go
step 0 1
step 1 5
step 2 4
int 3
step 3 3
step 0 1
step 1 3
step 2 4
step 1 1
step 2 3
end
---
1 0.0 rtake 0 fast
3 1.0 take 0w fast
11 3.1 int
13 3.1 rtake 0 irq
14 3.1 rrelease 0
15 0.0 rrelease 0
17 1.0 wtake 0 queued
18 1.0 release 0w
20 2.0 take 0w pending
23 1.0 wrelease 0
24 2.0 rtake 0 queued
25 2.0 release 0w
26 2.0 rrelease 0
end 26
lock_pending 1
---
# A reader's try fails beside the writer, and after it a writer's try succeeds.
qtrace 1
mode virt
cpus 2
lock 0 rw
prog 0 write 0 wunlock 0
prog 1 tryread 0 runlock 0 trywrite 0 wunlock 0
go
step 0 1
step 1 1
step 0 1
step 1 3
end
---
1 0.0 wtake 0 fast
2 1.0 miss 0
3 0.0 wrelease 0
5 1.0 wtake 0 try
6 1.0 wrelease 0
end 6
---
# Two readers hold together; a writer waits for both with the wait lock; a reader in an interrupt passes it.
qtrace 1
mode native
cpus 3
lock 0 rw
prog 0 read 0 runlock 0
prog 1 write 0 wunlock 0
prog 2 read 0 runlock 0
irq 2 read 0 runlock 0
go
step 0 1
step 2 1
step 1 5
int 2
step 2 4
step 1 1
step 0 1
step 1 4
step 0 1
step 1 1
step 2 1
end
---
1 0.0 rtake 0 fast
2 2.0 rtake 0 fast
4 1.0 take 0w fast
8 2.1 int
10 2.1 rtake 0 irq
11 2.1 rrelease 0
12 2.0 rrelease 0
14 0.0 rrelease 0
16 1.0 wtake 0 queued
17 1.0 release 0w
18 1.0 wrelease 0
end 21
";
