// Worked runs of the spin queue: each input, its transcript behind `---`, and then the next.

/// Each run, and what is written for it.
pub const RUNS: &str = "\
qosq 1
# One that waits is handed the lock. Whoever is finished does nothing.
cpus 2
prog 0 1
prog 1 1
go
step 0 2
step 1 4
step 0 3
step 1 2
step 0 1
give 1
end
---
2 0 take free
4 1 arrive
9 0 release to 1
10 1 take handed
11 1 release
end 13
---
qosq 1
# One gives up between two others.
cpus 3
prog 0 1
prog 1 1
prog 2 1
go
step 0 2
step 1 4
step 2 4
give 1
step 1 7
step 0 3
step 2 2
end
---
2 0 take free
4 1 arrive
8 2 arrive
18 1 quit
21 0 release to 2
22 2 take handed
23 2 release
end 23
---
qosq 1
# Two neighbours give up at once, and the one behind has cut the link between them first.
cpus 4
prog 0 1
prog 1 1
prog 2 1
prog 3 1
go
step 0 2
step 1 4
step 2 4
step 3 4
give 1
give 2
step 1 2
step 2 2
step 1 4
step 2 5
step 1 5
step 0 3
step 3 2
end
---
2 0 take free
4 1 arrive
8 2 arrive
12 3 arrive
29 2 quit
34 1 quit
37 0 release to 3
38 3 take handed
39 3 release
end 39
---
qosq 1
# A handover meets a quitter that has cut the link, and then one that can no longer cut it.
cpus 3
prog 0 1
prog 1 2
prog 2 1
go
step 0 2
step 1 4
step 2 4
give 1
step 1 2
step 0 4
step 1 5
step 0 4
step 2 1
step 1 4
give 1
step 1 1
step 2 2
step 1 2
step 2 1
step 1 3
step 1 1
end
---
2 0 take free
4 1 arrive
8 2 arrive
22 1 quit
26 0 release to 2
27 2 take handed
29 1 arrive
38 2 release to 1
41 1 take handed
42 1 release
end 42
";

/// A run of four processors in which each row has each of its outcomes. An independent model gave
/// its events.
pub const EVERY_OUTCOME: &str = "\
qosq 1
cpus 4
prog 0 4
prog 1 4
prog 2 4
prog 3 4
go
step 0 5
step 2 2
step 3 2
give 3
step 3 1
step 1 4
step 3 1
step 2 6
give 2
step 2 6
give 2
step 2 1
step 1 1
give 1
step 1 2
give 1
step 1 1
give 1
step 0 6
step 3 5
give 1
give 1
step 2 2
give 2
step 2 3
give 2
step 2 7
give 2
step 2 3
step 3 5
step 0 4
step 3 1
give 3
step 2 2
step 1 3
give 1
step 1 16
give 1
step 1 3
step 0 1
give 0
step 0 3
step 1 5
give 2
give 2
step 1 1
step 3 2
step 1 6
step 3 1
step 2 1
give 3
give 3
step 1 2
step 2 1
give 2
step 2 1
step 1 1
give 1
step 1 10
step 3 6
give 3
step 3 2
step 1 9
give 2
step 2 2
step 3 5
give 3
step 2 3
step 3 1
step 2 2
give 2
step 3 4
step 0 3
step 1 1
give 1
step 1 2
step 0 4
give 0
step 0 10
give 0
step 2 2
step 3 1
step 1 3
step 2 3
give 1
step 0 1
step 3 4
step 2 4
step 0 3
step 1 1
give 1
step 1 1
step 3 1
step 1 1
step 0 4
step 1 2
step 3 5
step 1 4
step 2 9
step 3 2
step 1 2
step 2 2
give 2
step 2 1
give 3
step 3 1
step 0 1
give 2
step 2 2
step 0 1
step 1 2
give 1
step 1 1
step 3 1
step 0 1
give 0
step 0 2
step 1 4
give 1
step 1 2
step 0 1
step 1 3
step 2 1
step 1 4
step 3 2
give 3
step 1 5
give 1
step 2 2
step 3 6
step 2 1
give 1
step 0 1
give 0
step 0 3
step 1 2
step 0 9
give 0
give 0
step 0 3
step 3 3
end
---
2 0 take free
3 0 release
5 0 take free
7 2 arrive
9 3 arrive
13 1 arrive
31 2 quit
41 0 release to 3
43 0 arrive
45 3 take handed
53 2 arrive
61 2 quit
63 2 arrive
81 2 quit
88 1 quit
90 1 arrive
112 1 quit
114 1 arrive
129 2 arrive
145 1 quit
147 1 arrive
149 3 release to 0
151 3 arrive
171 3 quit
173 3 arrive
186 3 quit
189 0 take handed
214 1 quit
218 2 quit
221 3 arrive
237 0 release to 3
239 0 arrive
243 3 take handed
320 0 quit
343 3 release
end 343
";
