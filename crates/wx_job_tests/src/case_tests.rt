// Each case of a job: what a step lists and what the job is then, worked out by hand from the table of cases.
//
// A block begins with the moves that come before each of its cases, whose form `seen.rt` tells.
use crate::seen::each_block;

/// No child runs: none was spawned, one has ended, and the last spawn failed.
const WITHOUT_A_CHILD: &str = "\
step 1:
step 2 = word idle | idle pending
start,step 2 = pick 0 0, spawn 0 0 default ---- 1 a ok, raise 0 | did runs 0 from 2
start,step 2 ! 0 = pick 0 0, spawn 0 0 default ---- 1 a fault 7, raise 0 | did pending
stop,step 2 = pick 0 0, raise 0 | did pending
gracefulstop quit 9,step 2 = pick 0 0, raise 0 | did pending
tryrestart,step 2 = pick 0 0, raise 0 | did pending
trygracefulrestart quit 9,step 2 = pick 0 0, raise 0 | did pending
continue,step 2 = pick 0 0, spawn 0 0 default ---- 1 a ok, raise 0 | did runs 0 from 2
continue,step 2 ! 0 = pick 0 0, spawn 0 0 default ---- 1 a fault 7, raise 0 | did pending
signal quit,step 2 = pick 0 0, raise 0 | did pending
delete,step 2 = pick 0 0, raise 0, gone 0 | gone pending
nextending,step 2 = pick 0 0 | did pending parks 1
sethook 2,step 2 = pick 0 0, raise 0 | did pending
unsethook,step 2 = pick 0 0, raise 0 | did pending
setspawn 3,step 2 = pick 0 0, raise 0 | did pending
setchild 4,step 2 = pick 0 0, raise 0 | did pending
clearspawn,step 2 = pick 0 0, raise 0 | did pending
seterror 6,step 2 = pick 0 0, raise 0 | did pending
unseterror,step 2 = pick 0 0, raise 0 | did pending
run 5,step 2 = pick 0 0, run 0 5, raise 0 | did pending
runasync 5,step 2 = pick 0 0, begun 0 5 | did pending
deletenow,step 2 = pick 0 0, raise 0 | did pending
deletenow,step 2,step 3 = pick 0 1, raise 1, gone 0 | gone pending
towait,step 2 = pick 0 0 | did pending parks 1
start,end = gone 0 | pending
start,end,step 2 =  | gone pending

start,step 1,ended 2:
step 3 = word idle | idle success from 1 to 2
start,step 3 = pick 0 1, spawn 1 0 default ---- 1 a ok, raise 1 | did runs 1 from 3
start,step 3 ! 0 = pick 0 1, spawn 1 0 default ---- 1 a fault 7, raise 1 | did pending
stop,step 3 = pick 0 1, raise 1 | did success from 1 to 2
gracefulstop quit 9,step 3 = pick 0 1, raise 1 | did success from 1 to 2
tryrestart,step 3 = pick 0 1, raise 1 | did success from 1 to 2
trygracefulrestart quit 9,step 3 = pick 0 1, raise 1 | did success from 1 to 2
continue,step 3 = pick 0 1, spawn 1 0 default ---- 1 a ok, raise 1 | did runs 1 from 3
continue,step 3 ! 0 = pick 0 1, spawn 1 0 default ---- 1 a fault 7, raise 1 | did pending
signal quit,step 3 = pick 0 1, raise 1 | did success from 1 to 2
delete,step 3 = pick 0 1, raise 1, gone 0 | gone success from 1 to 2
nextending,step 3 = pick 0 1, raise 1 | did success from 1 to 2
sethook 2,step 3 = pick 0 1, raise 1 | did success from 1 to 2
unsethook,step 3 = pick 0 1, raise 1 | did success from 1 to 2
setspawn 3,step 3 = pick 0 1, raise 1 | did success from 1 to 2
setchild 4,step 3 = pick 0 1, raise 1 | did success from 1 to 2
clearspawn,step 3 = pick 0 1, raise 1 | did success from 1 to 2
seterror 6,step 3 = pick 0 1, raise 1 | did success from 1 to 2
unseterror,step 3 = pick 0 1, raise 1 | did success from 1 to 2
run 5,step 3 = pick 0 1, run 0 5, raise 1 | did success from 1 to 2
runasync 5,step 3 = pick 0 1, begun 0 5 | did success from 1 to 2
towait,step 3 = pick 0 1, raise 1 | did success from 1 to 2

start,step 1 ! 0:
start,step 2 = pick 0 1, spawn 1 0 default ---- 1 a ok, raise 1 | did runs 1 from 2
start,step 2 ! 0 = pick 0 1, spawn 1 0 default ---- 1 a fault 7, raise 1 | did pending
stop,step 2 = pick 0 1, raise 1 | did pending
gracefulstop quit 9,step 2 = pick 0 1, raise 1 | did pending
tryrestart,step 2 = pick 0 1, raise 1 | did pending
trygracefulrestart quit 9,step 2 = pick 0 1, raise 1 | did pending
continue,step 2 = pick 0 1, spawn 1 0 default ---- 1 a ok, raise 1 | did runs 1 from 2
signal quit,step 2 = pick 0 1, raise 1 | did pending
delete,step 2 = pick 0 1, raise 1, gone 0 | gone pending
nextending,step 2 = pick 0 1 | did pending parks 1
run 5,step 2 = pick 0 1, run 0 5, raise 1 | did pending
runasync 5,step 2 = pick 0 1, begun 0 5 | did pending

towait,step 1:
start,step 2 = pick 0 1, spawn 0 0 default ---- 1 a ok, raise 1 | did runs 0 from 2 parks 1
start,step 2 ! 0 = pick 0 1, spawn 0 0 default ---- 1 a fault 7, raise 1 | did pending parks 1
stop,step 2 = pick 0 1, raise 1 | did pending parks 1
gracefulstop quit 9,step 2 = pick 0 1, raise 1 | did pending parks 1
tryrestart,step 2 = pick 0 1, raise 1 | did pending parks 1
trygracefulrestart quit 9,step 2 = pick 0 1, raise 1 | did pending parks 1
continue,step 2 = pick 0 1, spawn 0 0 default ---- 1 a ok, raise 1 | did runs 0 from 2 parks 1
continue,step 2 ! 0 = pick 0 1, spawn 0 0 default ---- 1 a fault 7, raise 1 | did pending parks 1
signal quit,step 2 = pick 0 1, raise 1 | did pending parks 1
delete,step 2 = pick 0 1, raise 1, gone 0 | gone pending
nextending,step 2 = pick 0 1 | did pending parks 2
run 5,step 2 = pick 0 1, run 0 5, raise 1 | did pending parks 1
runasync 5,step 2 = pick 0 1, begun 0 5 | did pending parks 1";

#[test]
fn cases_without_a_child(rt: HostRuntime) {
    each_block(&rt, rt.alloc(), WITHOUT_A_CHILD);
}

/// Child 0 runs, and no grace stands: no ticket is parked, and those of the numbers 1 and 2.
const WITH_A_CHILD: &str = "\
start,step 1:
step 2 = word idle | idle runs 0 from 1
ended 2 = wait 0 success | did success from 1 to 2
ended 2 ! 0 = wait 0 fault 7 | did runs 0 from 1
ended 2,step 3 ! 0 = word idle | idle runs 0 from 1
stop,ended 2 = wait 0 success | did success from 1 to 2
stop,ended 2,step 3 = pick 0 1, raise 1 | did success from 1 to 2
deletenow,ended 2 = wait 0 success | did success from 1 to 2
start,step 2 = pick 0 1, raise 1 | did runs 0 from 1
stop,step 2 = pick 0 1, kill 0 ok, wait 0 success, raise 1 | did success from 1 to 2
stop,step 2 ! 0 = pick 0 1, kill 0 fault 7, raise 1 | did runs 0 from 1
stop,step 2 ! 1 = pick 0 1, kill 0 ok, wait 0 fault 7, raise 1 | did runs 0 from 1
gracefulstop quit 9,step 2 = pick 0 1, signal 0 3 ok | did runs 0 from 1 until 11
gracefulstop quit 9,step 2 ! 0 = pick 0 1, signal 0 3 fault 7, raise 1 | did runs 0 from 1
tryrestart,step 2 = pick 0 1, kill 0 ok, wait 0 success, spawn 1 0 default ---- 1 a ok, raise 1 | did runs 1 from 2
tryrestart,step 2 ! 0 = pick 0 1, kill 0 fault 7, raise 1 | did runs 0 from 1
tryrestart,step 2 ! 1 = pick 0 1, kill 0 ok, wait 0 fault 7, raise 1 | did runs 0 from 1
tryrestart,step 2 ! 2 = pick 0 1, kill 0 ok, wait 0 success, spawn 1 0 default ---- 1 a fault 7, raise 1 | did pending
trygracefulrestart quit 9,step 2 = pick 0 1, signal 0 3 ok | did runs 0 from 1 until 11
trygracefulrestart quit 9,step 2 ! 0 = pick 0 1, signal 0 3 fault 7, raise 1 | did runs 0 from 1
continue,step 2 = pick 0 1, kill 0 ok, wait 0 success, spawn 1 0 default ---- 1 a ok, raise 1 | did runs 1 from 2
continue,step 2 ! 0 = pick 0 1, kill 0 fault 7, raise 1 | did runs 0 from 1
continue,step 2 ! 1 = pick 0 1, kill 0 ok, wait 0 fault 7, raise 1 | did runs 0 from 1
continue,step 2 ! 2 = pick 0 1, kill 0 ok, wait 0 success, spawn 1 0 default ---- 1 a fault 7, raise 1 | did pending
signal quit,step 2 = pick 0 1, signal 0 3 ok, raise 1 | did runs 0 from 1
signal quit,step 2 ! 0 = pick 0 1, signal 0 3 fault 7, raise 1 | did runs 0 from 1
delete,step 2 = pick 0 1, raise 1, drop 0, gone 0 | gone left 0 from 1
nextending,step 2 = pick 0 1 | did runs 0 from 1 parks 1
sethook 2,step 2 = pick 0 1, raise 1 | did runs 0 from 1
unsethook,step 2 = pick 0 1, raise 1 | did runs 0 from 1
setspawn 3,step 2 = pick 0 1, raise 1 | did runs 0 from 1
setchild 4,step 2 = pick 0 1, raise 1 | did runs 0 from 1
clearspawn,step 2 = pick 0 1, raise 1 | did runs 0 from 1
seterror 6,step 2 = pick 0 1, raise 1 | did runs 0 from 1
unseterror,step 2 = pick 0 1, raise 1 | did runs 0 from 1
run 5,step 2 = pick 0 1, run 0 5, raise 1 | did runs 0 from 1
runasync 5,step 2 = pick 0 1, begun 0 5 | did runs 0 from 1
deletenow,step 2 = pick 0 1, kill 0 ok, wait 0 success, raise 1 | did success from 1 to 2
towait,step 2 = pick 0 1 | did runs 0 from 1 parks 1
end = drop 0, gone 0 | left 0 from 1
stop,end,step 2 =  | gone left 0 from 1

start,towait,towait,step 1,step 1,step 1:
step 2 = word idle | idle runs 0 from 1 parks 2
ended 2 = wait 0 success, raise 1, raise 2 | did success from 1 to 2
ended 2 ! 0 = wait 0 fault 7 | did runs 0 from 1 parks 2
start,step 2 = pick 0 3, raise 3 | did runs 0 from 1 parks 2
stop,step 2 = pick 0 3, kill 0 ok, wait 0 success, raise 1, raise 2, raise 3 | did success from 1 to 2
stop,step 2 ! 0 = pick 0 3, kill 0 fault 7, raise 3 | did runs 0 from 1 parks 2
stop,step 2 ! 1 = pick 0 3, kill 0 ok, wait 0 fault 7, raise 3 | did runs 0 from 1 parks 2
gracefulstop quit 9,step 2 = pick 0 3, signal 0 3 ok | did runs 0 from 1 until 11 parks 2
gracefulstop quit 9,step 2 ! 0 = pick 0 3, signal 0 3 fault 7, raise 3 | did runs 0 from 1 parks 2
tryrestart,step 2 = pick 0 3, kill 0 ok, wait 0 success, raise 1, raise 2, spawn 1 0 default ---- 1 a ok, raise 3 | did runs 1 from 2
tryrestart,step 2 ! 0 = pick 0 3, kill 0 fault 7, raise 3 | did runs 0 from 1 parks 2
tryrestart,step 2 ! 1 = pick 0 3, kill 0 ok, wait 0 fault 7, raise 3 | did runs 0 from 1 parks 2
tryrestart,step 2 ! 2 = pick 0 3, kill 0 ok, wait 0 success, raise 1, raise 2, spawn 1 0 default ---- 1 a fault 7, raise 3 | did pending
trygracefulrestart quit 9,step 2 = pick 0 3, signal 0 3 ok | did runs 0 from 1 until 11 parks 2
trygracefulrestart quit 9,step 2 ! 0 = pick 0 3, signal 0 3 fault 7, raise 3 | did runs 0 from 1 parks 2
continue,step 2 = pick 0 3, kill 0 ok, wait 0 success, raise 1, raise 2, spawn 1 0 default ---- 1 a ok, raise 3 | did runs 1 from 2
continue,step 2 ! 0 = pick 0 3, kill 0 fault 7, raise 3 | did runs 0 from 1 parks 2
continue,step 2 ! 1 = pick 0 3, kill 0 ok, wait 0 fault 7, raise 3 | did runs 0 from 1 parks 2
continue,step 2 ! 2 = pick 0 3, kill 0 ok, wait 0 success, raise 1, raise 2, spawn 1 0 default ---- 1 a fault 7, raise 3 | did pending
signal quit,step 2 = pick 0 3, signal 0 3 ok, raise 3 | did runs 0 from 1 parks 2
delete,step 2 = pick 0 3, raise 3, drop 0, gone 0 | gone left 0 from 1
nextending,step 2 = pick 0 3 | did runs 0 from 1 parks 3
sethook 2,step 2 = pick 0 3, raise 3 | did runs 0 from 1 parks 2
unsethook,step 2 = pick 0 3, raise 3 | did runs 0 from 1 parks 2
setspawn 3,step 2 = pick 0 3, raise 3 | did runs 0 from 1 parks 2
setchild 4,step 2 = pick 0 3, raise 3 | did runs 0 from 1 parks 2
clearspawn,step 2 = pick 0 3, raise 3 | did runs 0 from 1 parks 2
seterror 6,step 2 = pick 0 3, raise 3 | did runs 0 from 1 parks 2
unseterror,step 2 = pick 0 3, raise 3 | did runs 0 from 1 parks 2
run 5,step 2 = pick 0 3, run 0 5, raise 3 | did runs 0 from 1 parks 2
runasync 5,step 2 = pick 0 3, begun 0 5 | did runs 0 from 1 parks 2
end = drop 0, gone 0 | left 0 from 1";

#[test]
fn cases_with_a_child(rt: HostRuntime) {
    each_block(&rt, rt.alloc(), WITH_A_CHILD);
}

/// Child 0 runs in a grace of a stop, whose ticket is 1: no ticket is parked, and those of the numbers 2 and 3.
const IN_A_GRACE_OF_A_STOP: &str = "\
start,gracefulstop user1 9,step 1,step 2:
step 3 = word idle | idle runs 0 from 1 until 11
step 10 = word idle | idle runs 0 from 1 until 11
step 11 = grace 0, kill 0 ok, wait 0 success, raise 1 | did success from 1 to 11
step 11 ! 0 = grace 0, kill 0 fault 7, raise 1 | did runs 0 from 1
step 11 ! 1 = grace 0, kill 0 ok, wait 0 fault 7, raise 1 | did runs 0 from 1
deletenow,step 12 = grace 0, kill 0 ok, wait 0 success, raise 1 | did success from 1 to 12
ended 3 = wait 0 success, raise 1 | did success from 1 to 3
ended 3 ! 0 = wait 0 fault 7 | did runs 0 from 1 until 11
ended 11 = grace 0, kill 0 ok, wait 0 success, raise 1 | did success from 1 to 11
start,step 3 = word idle | idle runs 0 from 1 until 11
stop,step 3 = word idle | idle runs 0 from 1 until 11
gracefulstop quit 9,step 3 = word idle | idle runs 0 from 1 until 11
tryrestart,step 3 = word idle | idle runs 0 from 1 until 11
trygracefulrestart quit 9,step 3 = word idle | idle runs 0 from 1 until 11
continue,step 3 = word idle | idle runs 0 from 1 until 11
signal quit,step 3 = word idle | idle runs 0 from 1 until 11
delete,step 3 = word idle | idle runs 0 from 1 until 11
nextending,step 3 = word idle | idle runs 0 from 1 until 11
sethook 2,step 3 = word idle | idle runs 0 from 1 until 11
unsethook,step 3 = word idle | idle runs 0 from 1 until 11
setspawn 3,step 3 = word idle | idle runs 0 from 1 until 11
setchild 4,step 3 = word idle | idle runs 0 from 1 until 11
clearspawn,step 3 = word idle | idle runs 0 from 1 until 11
seterror 6,step 3 = word idle | idle runs 0 from 1 until 11
unseterror,step 3 = word idle | idle runs 0 from 1 until 11
run 5,step 3 = word idle | idle runs 0 from 1 until 11
runasync 5,step 3 = word idle | idle runs 0 from 1 until 11
deletenow,step 3 = pick 0 2, kill 0 ok, wait 0 success, raise 1, raise 2 | did success from 1 to 3
deletenow,step 3 ! 0 = pick 0 2, kill 0 fault 7, raise 2 | did runs 0 from 1 until 11
deletenow,step 3 ! 1 = pick 0 2, kill 0 ok, wait 0 fault 7, raise 2 | did runs 0 from 1 until 11
deletenow,step 3,step 4 = pick 0 3, raise 3, gone 0 | gone success from 1 to 3
deletenow,step 3,step 4 ! 0 = pick 0 3, raise 3, drop 0, gone 0 | gone left 0 from 1
towait,step 3 = pick 0 2 | did runs 0 from 1 until 11 parks 1
end = drop 0, gone 0 | left 0 from 1

start,gracefulstop user1 9,step 1,step 2,towait,towait,step 3,step 3:
step 11 = grace 0, kill 0 ok, wait 0 success, raise 2, raise 3, raise 1 | did success from 1 to 11
step 11 ! 0 = grace 0, kill 0 fault 7, raise 1 | did runs 0 from 1 parks 2
step 11 ! 1 = grace 0, kill 0 ok, wait 0 fault 7, raise 1 | did runs 0 from 1 parks 2
ended 4 = wait 0 success, raise 1, raise 2, raise 3 | did success from 1 to 4
ended 4 ! 0 = wait 0 fault 7 | did runs 0 from 1 until 11 parks 2
deletenow,step 4 = pick 0 4, kill 0 ok, wait 0 success, raise 2, raise 3, raise 1, raise 4 | did success from 1 to 4
deletenow,step 4 ! 0 = pick 0 4, kill 0 fault 7, raise 4 | did runs 0 from 1 until 11 parks 2
deletenow,step 4,step 5 ! 1 = pick 0 5, raise 5, drop 0, gone 0 | gone left 0 from 1";

#[test]
fn cases_in_a_grace_of_a_stop(rt: HostRuntime) {
    each_block(&rt, rt.alloc(), IN_A_GRACE_OF_A_STOP);
}

/// Child 0 runs in a grace of a restart, whose ticket is 1: no ticket is parked, and those of the numbers 2 and 3.
const IN_A_GRACE_OF_A_RESTART: &str = "\
start,trygracefulrestart user1 9,step 1,step 2:
step 3 = word idle | idle runs 0 from 1 until 11
step 10 = word idle | idle runs 0 from 1 until 11
step 11 = grace 0, kill 0 ok, wait 0 success, spawn 1 0 default ---- 1 a ok, raise 1 | did runs 1 from 11
step 11 ! 0 = grace 0, kill 0 fault 7, raise 1 | did runs 0 from 1
step 11 ! 1 = grace 0, kill 0 ok, wait 0 fault 7, raise 1 | did runs 0 from 1
step 11 ! 2 = grace 0, kill 0 ok, wait 0 success, spawn 1 0 default ---- 1 a fault 7, raise 1 | did pending
deletenow,step 12 = grace 0, kill 0 ok, wait 0 success, spawn 1 0 default ---- 1 a ok, raise 1 | did runs 1 from 12
ended 3 = wait 0 success, spawn 1 0 default ---- 1 a ok, raise 1 | did runs 1 from 3
ended 3 ! 0 = wait 0 fault 7 | did runs 0 from 1 until 11
ended 3 ! 1 = wait 0 success, spawn 1 0 default ---- 1 a fault 7, raise 1 | did pending
ended 11 = grace 0, kill 0 ok, wait 0 success, spawn 1 0 default ---- 1 a ok, raise 1 | did runs 1 from 11
start,step 3 = word idle | idle runs 0 from 1 until 11
stop,step 3 = word idle | idle runs 0 from 1 until 11
gracefulstop quit 9,step 3 = word idle | idle runs 0 from 1 until 11
tryrestart,step 3 = word idle | idle runs 0 from 1 until 11
trygracefulrestart quit 9,step 3 = word idle | idle runs 0 from 1 until 11
continue,step 3 = word idle | idle runs 0 from 1 until 11
signal quit,step 3 = word idle | idle runs 0 from 1 until 11
delete,step 3 = word idle | idle runs 0 from 1 until 11
nextending,step 3 = word idle | idle runs 0 from 1 until 11
sethook 2,step 3 = word idle | idle runs 0 from 1 until 11
unsethook,step 3 = word idle | idle runs 0 from 1 until 11
setspawn 3,step 3 = word idle | idle runs 0 from 1 until 11
setchild 4,step 3 = word idle | idle runs 0 from 1 until 11
clearspawn,step 3 = word idle | idle runs 0 from 1 until 11
seterror 6,step 3 = word idle | idle runs 0 from 1 until 11
unseterror,step 3 = word idle | idle runs 0 from 1 until 11
run 5,step 3 = word idle | idle runs 0 from 1 until 11
runasync 5,step 3 = word idle | idle runs 0 from 1 until 11
deletenow,step 3 = pick 0 2, kill 0 ok, wait 0 success, raise 1, raise 2 | did success from 1 to 3
deletenow,step 3 ! 0 = pick 0 2, kill 0 fault 7, raise 2 | did runs 0 from 1 until 11
deletenow,step 3 ! 1 = pick 0 2, kill 0 ok, wait 0 fault 7, raise 2 | did runs 0 from 1 until 11
deletenow,step 3,step 4 ! 0 = pick 0 3, raise 3, drop 0, gone 0 | gone left 0 from 1
towait,step 3 = pick 0 2 | did runs 0 from 1 until 11 parks 1
end = drop 0, gone 0 | left 0 from 1

start,trygracefulrestart user1 9,step 1,step 2,towait,towait,step 3,step 3:
step 11 = grace 0, kill 0 ok, wait 0 success, raise 2, raise 3, spawn 1 0 default ---- 1 a ok, raise 1 | did runs 1 from 11
step 11 ! 0 = grace 0, kill 0 fault 7, raise 1 | did runs 0 from 1 parks 2
step 11 ! 1 = grace 0, kill 0 ok, wait 0 fault 7, raise 1 | did runs 0 from 1 parks 2
step 11 ! 2 = grace 0, kill 0 ok, wait 0 success, raise 2, raise 3, spawn 1 0 default ---- 1 a fault 7, raise 1 | did pending
ended 4 = wait 0 success, raise 2, raise 3, spawn 1 0 default ---- 1 a ok, raise 1 | did runs 1 from 4
ended 4 ! 0 = wait 0 fault 7 | did runs 0 from 1 until 11 parks 2
ended 4 ! 1 = wait 0 success, raise 2, raise 3, spawn 1 0 default ---- 1 a fault 7, raise 1 | did pending
deletenow,step 4 = pick 0 4, kill 0 ok, wait 0 success, raise 2, raise 3, raise 1, raise 4 | did success from 1 to 4";

#[test]
fn cases_in_a_grace_of_a_restart(rt: HostRuntime) {
    each_block(&rt, rt.alloc(), IN_A_GRACE_OF_A_RESTART);
}

/// Child 0 runs, and a spawn hook is set. That of the number 9 has no memory, and then the case is given up.
const WITH_A_HOOK: &str = "\
start,sethook 2,setchild 4,step 1,step 2,step 3:
tryrestart,step 4 = pick 0 3, kill 0 ok, wait 0 success, hook 0 2 ---- 1 a, spawn 1 0 child.4 ---- 1 a ok, raise 3 | did runs 1 from 4
tryrestart,step 4 ! 0 = pick 0 3, kill 0 fault 7, raise 3 | did runs 0 from 1
tryrestart,step 4 ! 2 = pick 0 3, kill 0 ok, wait 0 success, hook 0 2 ---- 1 a, spawn 1 0 child.4 ---- 1 a fault 7, raise 3 | did pending
continue,step 4 = pick 0 3, kill 0 ok, wait 0 success, hook 0 2 ---- 1 a, spawn 1 0 child.4 ---- 1 a ok, raise 3 | did runs 1 from 4
trygracefulrestart user2 9,step 4,ended 5 = wait 0 success, hook 0 2 ---- 1 a, spawn 1 0 child.4 ---- 1 a ok, raise 3 | did runs 1 from 5
trygracefulrestart user2 9,step 4,step 13 = grace 0, kill 0 ok, wait 0 success, hook 0 2 ---- 1 a, spawn 1 0 child.4 ---- 1 a ok, raise 3 | did runs 1 from 13
gracefulstop user2 9,step 4,step 13 = grace 0, kill 0 ok, wait 0 success, raise 3 | did success from 1 to 13

start,sethook 9,towait,step 1,step 1,step 2:
tryrestart,step 3 = pick 0 3, kill 0 ok, wait 0 success, raise 2, hook 0 9 memory | memory pending
continue,step 3 = pick 0 3, kill 0 ok, wait 0 success, raise 2, hook 0 9 memory | memory pending
trygracefulrestart user2 9,step 3,ended 4 = wait 0 success, raise 2, hook 0 9 memory | memory pending
trygracefulrestart user2 9,step 3,step 12 = grace 0, kill 0 ok, wait 0 success, raise 2, hook 0 9 memory | memory pending
stop,step 3 = pick 0 3, kill 0 ok, wait 0 success, raise 2, raise 3 | did success from 1 to 3";

#[test]
fn cases_with_a_hook(rt: HostRuntime) {
    each_block(&rt, rt.alloc(), WITH_A_HOOK);
}

/// A function was begun, whose ticket is 0 where no child was spawned, and else 1 or 2. While it isn't ready nothing else is
/// picked, whatever waits, and also where the end of the child is kept.
const WITH_A_FUNCTION: &str = "\
runasync 5,step 1:
step 2 = poll 0 5 ready, raise 0 | did pending
step 2,step 3 = word idle | idle pending
poll later,step 2 = poll 0 5 later, word later | later pending
poll later,step 2,step 3 = poll 0 5 ready, raise 0 | did pending
poll later,poll later,poll ready,step 2,step 3 = poll 0 5 later, word later | later pending
poll later,poll later,poll ready,step 2,step 3,step 4 = poll 0 5 ready, raise 0 | did pending
start,step 2 = poll 0 5 ready, raise 0 | did pending
start,step 2,step 3 = pick 0 1, spawn 0 0 default ---- 1 a ok, raise 1 | did runs 0 from 3
runasync 6,step 2,step 3 = pick 0 1, begun 0 6 | did pending
runasync 6,step 2,step 3,step 4 = poll 0 6 ready, raise 1 | did pending
runasync 6,step 2,step 3,poll later,step 4 = poll 0 6 later, word later | later pending
run 6,step 2,step 3 = pick 0 1, run 0 6, raise 1 | did pending
end = gone 0 | pending
end,step 2 =  | gone pending

runasync 5,step 1,poll later:
start,step 2 = poll 0 5 later, word later | later pending
stop,step 2 = poll 0 5 later, word later | later pending
gracefulstop quit 9,step 2 = poll 0 5 later, word later | later pending
tryrestart,step 2 = poll 0 5 later, word later | later pending
trygracefulrestart quit 9,step 2 = poll 0 5 later, word later | later pending
continue,step 2 = poll 0 5 later, word later | later pending
signal quit,step 2 = poll 0 5 later, word later | later pending
delete,step 2 = poll 0 5 later, word later | later pending
nextending,step 2 = poll 0 5 later, word later | later pending
sethook 2,step 2 = poll 0 5 later, word later | later pending
unsethook,step 2 = poll 0 5 later, word later | later pending
setspawn 3,step 2 = poll 0 5 later, word later | later pending
setchild 4,step 2 = poll 0 5 later, word later | later pending
clearspawn,step 2 = poll 0 5 later, word later | later pending
seterror 6,step 2 = poll 0 5 later, word later | later pending
unseterror,step 2 = poll 0 5 later, word later | later pending
run 6,step 2 = poll 0 5 later, word later | later pending
runasync 6,step 2 = poll 0 5 later, word later | later pending
deletenow,step 2 = poll 0 5 later, word later | later pending
deletenow,step 2,step 3 = poll 0 5 ready, raise 0 | did pending
deletenow,step 2,step 3,step 4 = pick 0 1, raise 1 | did pending
deletenow,step 2,step 3,step 4,step 5 = pick 0 2, raise 2, gone 0 | gone pending
towait,step 2 = poll 0 5 later, word later | later pending

start,runasync 5,step 1,step 2:
step 3 = poll 0 5 ready, raise 1 | did runs 0 from 1
step 3,step 4 = word idle | idle runs 0 from 1
ended 3 = poll 0 5 ready, raise 1 | did runs 0 from 1
ended 3,step 4 = wait 0 success | did success from 1 to 4
ended 3,step 4 ! 0 = wait 0 fault 7 | did runs 0 from 1
poll later,ended 3 = poll 0 5 later, word later | later runs 0 from 1
poll later,ended 3,step 4 = poll 0 5 ready, raise 1 | did runs 0 from 1
poll later,ended 3,step 4,step 5 = wait 0 success | did success from 1 to 5
start,step 3 = poll 0 5 ready, raise 1 | did runs 0 from 1
stop,step 3 = poll 0 5 ready, raise 1 | did runs 0 from 1
stop,step 3,step 4 = pick 0 2, kill 0 ok, wait 0 success, raise 2 | did success from 1 to 4
gracefulstop quit 9,step 3 = poll 0 5 ready, raise 1 | did runs 0 from 1
gracefulstop quit 9,step 3,step 4 = pick 0 2, signal 0 3 ok | did runs 0 from 1 until 13
tryrestart,step 3 = poll 0 5 ready, raise 1 | did runs 0 from 1
trygracefulrestart quit 9,step 3 = poll 0 5 ready, raise 1 | did runs 0 from 1
continue,step 3 = poll 0 5 ready, raise 1 | did runs 0 from 1
signal quit,step 3 = poll 0 5 ready, raise 1 | did runs 0 from 1
delete,step 3 = poll 0 5 ready, raise 1 | did runs 0 from 1
nextending,step 3 = poll 0 5 ready, raise 1 | did runs 0 from 1
sethook 2,step 3 = poll 0 5 ready, raise 1 | did runs 0 from 1
unsethook,step 3 = poll 0 5 ready, raise 1 | did runs 0 from 1
setspawn 3,step 3 = poll 0 5 ready, raise 1 | did runs 0 from 1
setchild 4,step 3 = poll 0 5 ready, raise 1 | did runs 0 from 1
clearspawn,step 3 = poll 0 5 ready, raise 1 | did runs 0 from 1
seterror 6,step 3 = poll 0 5 ready, raise 1 | did runs 0 from 1
unseterror,step 3 = poll 0 5 ready, raise 1 | did runs 0 from 1
run 6,step 3 = poll 0 5 ready, raise 1 | did runs 0 from 1
runasync 6,step 3 = poll 0 5 ready, raise 1 | did runs 0 from 1
deletenow,step 3 = poll 0 5 ready, raise 1 | did runs 0 from 1
deletenow,poll later,step 3 = poll 0 5 later, word later | later runs 0 from 1
deletenow,step 3,step 4 = pick 0 2, kill 0 ok, wait 0 success, raise 2 | did success from 1 to 4
towait,step 3 = poll 0 5 ready, raise 1 | did runs 0 from 1
towait,poll later,step 3 = poll 0 5 later, word later | later runs 0 from 1
towait,step 3,step 4 = pick 0 2 | did runs 0 from 1 parks 1
end = drop 0, gone 0 | left 0 from 1
end,step 3 =  | gone left 0 from 1

start,towait,runasync 5,step 1,step 2,step 3:
step 4 = poll 0 5 ready, raise 2 | did runs 0 from 2 parks 1
poll later,step 4 = poll 0 5 later, word later | later runs 0 from 2 parks 1
ended 4 = poll 0 5 ready, raise 2 | did runs 0 from 2 parks 1
ended 4,step 5 = wait 0 success, raise 1 | did success from 2 to 5
end = drop 0, gone 0 | left 0 from 2

start,step 1,ended 2,runasync 5,step 3:
step 4 = poll 0 5 ready, raise 1 | did success from 1 to 2
poll later,step 4 = poll 0 5 later, word later | later success from 1 to 2
nextending,step 4,step 5 = pick 0 2, raise 2 | did success from 1 to 2
end = gone 0 | success from 1 to 2";

#[test]
fn cases_with_a_function(rt: HostRuntime) {
    each_block(&rt, rt.alloc(), WITH_A_FUNCTION);
}

/// The error handler 6 is set, or was, and each call on the child fails in turn.
const WITH_AN_ERROR_HANDLER: &str = "\
seterror 6,step 1:
step 2 = word idle | idle pending
start,step 2 = pick 0 1, spawn 0 0 default ---- 1 a ok, raise 1 | did runs 0 from 2
start,step 2 ! 0 = pick 0 1, spawn 0 0 default ---- 1 a fault 7, joberror 0 6 7, raise 1 | did pending
continue,step 2 ! 0 = pick 0 1, spawn 0 0 default ---- 1 a fault 7, joberror 0 6 7, raise 1 | did pending
start,unseterror,step 2 ! 0 = pick 0 1, spawn 0 0 default ---- 1 a fault 7, joberror 0 6 7, raise 1 | did pending
unseterror,start,step 2,step 3 ! 0 = pick 0 2, spawn 0 0 default ---- 1 a fault 7, raise 2 | did pending
seterror 8,start,step 2,step 3 ! 0 = pick 0 2, spawn 0 0 default ---- 1 a fault 7, joberror 0 8 7, raise 2 | did pending
unseterror,seterror 8,start,step 2,step 3,step 4 ! 0 = pick 0 3, spawn 0 0 default ---- 1 a fault 7, joberror 0 8 7, raise 3 | did pending
setchild 4,start,step 2,step 3 ! 0 = pick 0 2, spawn 0 0 child.4 ---- 1 a fault 7, joberror 0 6 7, raise 2 | did pending
sethook 2,start,step 2,step 3 = pick 0 2, hook 0 2 ---- 1 a, spawn 0 0 default ---- 1 a ok, raise 2 | did runs 0 from 3
sethook 2,start,step 2,step 3 ! 0 = pick 0 2, hook 0 2 ---- 1 a, spawn 0 0 default ---- 1 a fault 7, joberror 0 6 7, raise 2 | did pending
sethook 2,unsethook,start,step 2,step 3,step 4 ! 0 = pick 0 3, spawn 0 0 default ---- 1 a fault 7, joberror 0 6 7, raise 3 | did pending
sethook 2,unseterror,start,step 2,step 3,step 4 ! 0 = pick 0 3, hook 0 2 ---- 1 a, spawn 0 0 default ---- 1 a fault 7, raise 3 | did pending
sethook 9,start,step 2,step 3 = pick 0 2, hook 0 9 memory | memory pending
towait,start,step 2,step 3 ! 0 = pick 0 2, spawn 0 0 default ---- 1 a fault 7, joberror 0 6 7, raise 2 | did pending parks 1
run 5,step 2 = pick 0 1, run 0 5, raise 1 | did pending

seterror 6,start,step 1,step 2:
ended 3 = wait 0 success | did success from 2 to 3
ended 3 ! 0 = wait 0 fault 7, joberror 0 6 7 | did runs 0 from 2
stop,step 3 = pick 0 2, kill 0 ok, wait 0 success, raise 2 | did success from 2 to 3
stop,step 3 ! 0 = pick 0 2, kill 0 fault 7, joberror 0 6 7, raise 2 | did runs 0 from 2
stop,step 3 ! 1 = pick 0 2, kill 0 ok, wait 0 fault 7, joberror 0 6 7, raise 2 | did runs 0 from 2
gracefulstop quit 9,step 3 ! 0 = pick 0 2, signal 0 3 fault 7, joberror 0 6 7, raise 2 | did runs 0 from 2
tryrestart,step 3 ! 0 = pick 0 2, kill 0 fault 7, joberror 0 6 7, raise 2 | did runs 0 from 2
tryrestart,step 3 ! 1 = pick 0 2, kill 0 ok, wait 0 fault 7, joberror 0 6 7, raise 2 | did runs 0 from 2
tryrestart,step 3 ! 2 = pick 0 2, kill 0 ok, wait 0 success, spawn 1 0 default ---- 1 a fault 7, joberror 0 6 7, raise 2 | did pending
trygracefulrestart quit 9,step 3 ! 0 = pick 0 2, signal 0 3 fault 7, joberror 0 6 7, raise 2 | did runs 0 from 2
continue,step 3 ! 0 = pick 0 2, kill 0 fault 7, joberror 0 6 7, raise 2 | did runs 0 from 2
continue,step 3 ! 1 = pick 0 2, kill 0 ok, wait 0 fault 7, joberror 0 6 7, raise 2 | did runs 0 from 2
continue,step 3 ! 2 = pick 0 2, kill 0 ok, wait 0 success, spawn 1 0 default ---- 1 a fault 7, joberror 0 6 7, raise 2 | did pending
signal quit,step 3 = pick 0 2, signal 0 3 ok, raise 2 | did runs 0 from 2
signal quit,step 3 ! 0 = pick 0 2, signal 0 3 fault 7, joberror 0 6 7, raise 2 | did runs 0 from 2
deletenow,step 3 ! 0 = pick 0 2, kill 0 fault 7, joberror 0 6 7, raise 2 | did runs 0 from 2
deletenow,step 3 ! 1 = pick 0 2, kill 0 ok, wait 0 fault 7, joberror 0 6 7, raise 2 | did runs 0 from 2
delete,step 3 = pick 0 2, raise 2, drop 0, gone 0 | gone left 0 from 2
stop,start,step 3,step 4 ! 2 = pick 0 3, spawn 1 0 default ---- 1 a fault 7, joberror 0 6 7, raise 3 | did pending
end = drop 0, gone 0 | left 0 from 2

seterror 6,start,step 1,step 2,towait,step 3:
ended 4 ! 0 = wait 0 fault 7, joberror 0 6 7 | did runs 0 from 2 parks 1
stop,step 4 ! 0 = pick 0 3, kill 0 fault 7, joberror 0 6 7, raise 3 | did runs 0 from 2 parks 1
stop,step 4 ! 1 = pick 0 3, kill 0 ok, wait 0 fault 7, joberror 0 6 7, raise 3 | did runs 0 from 2 parks 1
tryrestart,step 4 ! 0 = pick 0 3, kill 0 fault 7, joberror 0 6 7, raise 3 | did runs 0 from 2 parks 1
tryrestart,step 4 ! 2 = pick 0 3, kill 0 ok, wait 0 success, raise 2, spawn 1 0 default ---- 1 a fault 7, joberror 0 6 7, raise 3 | did pending
continue,step 4 ! 2 = pick 0 3, kill 0 ok, wait 0 success, raise 2, spawn 1 0 default ---- 1 a fault 7, joberror 0 6 7, raise 3 | did pending

seterror 6,start,gracefulstop user1 9,step 1,step 2,step 3:
step 12 = grace 0, kill 0 ok, wait 0 success, raise 2 | did success from 2 to 12
step 12 ! 0 = grace 0, kill 0 fault 7, joberror 0 6 7, raise 2 | did runs 0 from 2
step 12 ! 1 = grace 0, kill 0 ok, wait 0 fault 7, joberror 0 6 7, raise 2 | did runs 0 from 2
ended 4 = wait 0 success, raise 2 | did success from 2 to 4
ended 4 ! 0 = wait 0 fault 7, joberror 0 6 7 | did runs 0 from 2 until 12
deletenow,step 4 ! 0 = pick 0 3, kill 0 fault 7, joberror 0 6 7, raise 3 | did runs 0 from 2 until 12
deletenow,step 4 ! 1 = pick 0 3, kill 0 ok, wait 0 fault 7, joberror 0 6 7, raise 3 | did runs 0 from 2 until 12
unseterror,step 4,ended 5 ! 0 = wait 0 fault 7, joberror 0 6 7 | did runs 0 from 2 until 12

seterror 6,start,trygracefulrestart user1 9,step 1,step 2,step 3:
step 12 = grace 0, kill 0 ok, wait 0 success, spawn 1 0 default ---- 1 a ok, raise 2 | did runs 1 from 12
step 12 ! 0 = grace 0, kill 0 fault 7, joberror 0 6 7, raise 2 | did runs 0 from 2
step 12 ! 1 = grace 0, kill 0 ok, wait 0 fault 7, joberror 0 6 7, raise 2 | did runs 0 from 2
step 12 ! 2 = grace 0, kill 0 ok, wait 0 success, spawn 1 0 default ---- 1 a fault 7, joberror 0 6 7, raise 2 | did pending
ended 4 ! 0 = wait 0 fault 7, joberror 0 6 7 | did runs 0 from 2 until 12
ended 4 ! 1 = wait 0 success, spawn 1 0 default ---- 1 a fault 7, joberror 0 6 7, raise 2 | did pending
deletenow,step 4 ! 0 = pick 0 3, kill 0 fault 7, joberror 0 6 7, raise 3 | did runs 0 from 2 until 12
deletenow,step 4 ! 1 = pick 0 3, kill 0 ok, wait 0 fault 7, joberror 0 6 7, raise 3 | did runs 0 from 2 until 12

seterror 6,sethook 2,start,step 1,step 2,step 3,towait,step 4:
tryrestart,step 5 ! 2 = pick 0 4, kill 0 ok, wait 0 success, raise 3, hook 0 2 ---- 1 a, spawn 1 0 default ---- 1 a fault 7, joberror 0 6 7, raise 4 | did pending
continue,step 5 ! 2 = pick 0 4, kill 0 ok, wait 0 success, raise 3, hook 0 2 ---- 1 a, spawn 1 0 default ---- 1 a fault 7, joberror 0 6 7, raise 4 | did pending
trygracefulrestart user2 9,step 5,ended 6 ! 2 = wait 0 success, raise 3, hook 0 2 ---- 1 a, spawn 1 0 default ---- 1 a fault 7, joberror 0 6 7, raise 4 | did pending
trygracefulrestart user2 9,step 5,step 14 ! 3 = grace 0, kill 0 ok, wait 0 success, raise 3, hook 0 2 ---- 1 a, spawn 1 0 default ---- 1 a fault 7, joberror 0 6 7, raise 4 | did pending
stop,step 5 ! 0 = pick 0 4, kill 0 fault 7, joberror 0 6 7, raise 4 | did runs 0 from 3 parks 1

seterror 6,unseterror,start,step 1,step 2,step 3:
ended 4 ! 0 = wait 0 fault 7 | did runs 0 from 3
stop,step 4 ! 0 = pick 0 3, kill 0 fault 7, raise 3 | did runs 0 from 3
stop,step 4 ! 1 = pick 0 3, kill 0 ok, wait 0 fault 7, raise 3 | did runs 0 from 3
gracefulstop quit 9,step 4 ! 0 = pick 0 3, signal 0 3 fault 7, raise 3 | did runs 0 from 3
gracefulstop quit 9,step 4,step 13 ! 1 = grace 0, kill 0 fault 7, raise 3 | did runs 0 from 3
gracefulstop quit 9,step 4,step 13 ! 2 = grace 0, kill 0 ok, wait 0 fault 7, raise 3 | did runs 0 from 3
tryrestart,step 4 ! 2 = pick 0 3, kill 0 ok, wait 0 success, spawn 1 0 default ---- 1 a fault 7, raise 3 | did pending
trygracefulrestart quit 9,step 4,step 13 ! 3 = grace 0, kill 0 ok, wait 0 success, spawn 1 0 default ---- 1 a fault 7, raise 3 | did pending
trygracefulrestart quit 9,step 4,ended 5 ! 2 = wait 0 success, spawn 1 0 default ---- 1 a fault 7, raise 3 | did pending
signal quit,step 4 ! 0 = pick 0 3, signal 0 3 fault 7, raise 3 | did runs 0 from 3";

#[test]
fn cases_with_an_error_handler(rt: HostRuntime) {
    each_block(&rt, rt.alloc(), WITH_AN_ERROR_HANDLER);
}

/// There are no more handles: a step does what can be picked, is idle while a grace stands, and else ends the job.
const CLOSED: &str = "\
close:
step 1 = gone 0 | gone pending
step 1,step 2 =  | gone pending
step 1,start =  | pending
step 1,end =  | pending
close,step 1 = gone 0 | gone pending
step 1,close,step 2 =  | gone pending
end = gone 0 | pending
start = asked 0 0 normal start | pending
start,step 1 = pick 0 0, spawn 0 0 default ---- 1 a ok, raise 0 | did runs 0 from 1
start,step 1 ! 0 = pick 0 0, spawn 0 0 default ---- 1 a fault 7, raise 0 | did pending
start,step 1,step 2 = drop 0, gone 0 | gone left 0 from 1
start,step 1,step 2 ! 0 = gone 0 | gone pending
stop,step 1 = pick 0 0, raise 0 | did pending
stop,step 1,step 2 = gone 0 | gone pending
gracefulstop quit 9,step 1 = pick 0 0, raise 0 | did pending
tryrestart,step 1 = pick 0 0, raise 0 | did pending
trygracefulrestart quit 9,step 1 = pick 0 0, raise 0 | did pending
continue,step 1 = pick 0 0, spawn 0 0 default ---- 1 a ok, raise 0 | did runs 0 from 1
signal quit,step 1 = pick 0 0, raise 0 | did pending
delete,step 1 = pick 0 0, raise 0, gone 0 | gone pending
nextending,step 1 = pick 0 0 | did pending parks 1
nextending,step 1,step 2 = gone 0 | gone pending
sethook 2,step 1 = pick 0 0, raise 0 | did pending
unsethook,step 1 = pick 0 0, raise 0 | did pending
setspawn 3,step 1 = pick 0 0, raise 0 | did pending
setchild 4,step 1 = pick 0 0, raise 0 | did pending
clearspawn,step 1 = pick 0 0, raise 0 | did pending
seterror 6,step 1 = pick 0 0, raise 0 | did pending
unseterror,step 1 = pick 0 0, raise 0 | did pending
run 5,step 1 = pick 0 0, run 0 5, raise 0 | did pending
runasync 5,step 1 = pick 0 0, begun 0 5 | did pending
runasync 5,step 1,step 2 = poll 0 5 ready, raise 0 | did pending
runasync 5,step 1,step 2,step 3 = gone 0 | gone pending
runasync 5,step 1,poll later,step 2 = poll 0 5 later, word later | later pending
runasync 5,step 1,poll later,step 2,step 3 = poll 0 5 ready, raise 0 | did pending
sethook 9,start,step 1,step 2 = pick 0 1, hook 0 9 memory | memory pending
sethook 9,start,step 1,step 2,step 3 = gone 0 | gone pending

start,step 1,close:
step 2 = drop 0, gone 0 | gone left 0 from 1
step 2,step 3 =  | gone left 0 from 1
close,step 2 = drop 0, gone 0 | gone left 0 from 1
end = drop 0, gone 0 | left 0 from 1
end,close,step 2 =  | gone left 0 from 1
ended 2 = wait 0 success | did success from 1 to 2
ended 2 ! 0 = wait 0 fault 7 | did runs 0 from 1
ended 2,step 3 = gone 0 | gone success from 1 to 2
ended 2,step 3 ! 0 = drop 0, gone 0 | gone left 0 from 1
start,step 2 = pick 0 1, raise 1 | did runs 0 from 1
stop,step 2 = pick 0 1, kill 0 ok, wait 0 success, raise 1 | did success from 1 to 2
stop,step 2,step 3 = gone 0 | gone success from 1 to 2
stop,step 2,step 3 ! 0 = drop 0, gone 0 | gone left 0 from 1
gracefulstop quit 9,step 2 = pick 0 1, signal 0 3 ok | did runs 0 from 1 until 11
gracefulstop quit 9,step 2,step 3 = word idle | idle runs 0 from 1 until 11
gracefulstop quit 9,step 2,step 3 ! 0 = drop 0, gone 0 | gone left 0 from 1
tryrestart,step 2 = pick 0 1, kill 0 ok, wait 0 success, spawn 1 0 default ---- 1 a ok, raise 1 | did runs 1 from 2
tryrestart,step 2,step 3 = drop 1, gone 0 | gone left 1 from 2
signal quit,step 2 = pick 0 1, signal 0 3 ok, raise 1 | did runs 0 from 1
delete,step 2 = pick 0 1, raise 1, drop 0, gone 0 | gone left 0 from 1
nextending,step 2 = pick 0 1 | did runs 0 from 1 parks 1
nextending,step 2,ended 3 = wait 0 success, raise 1 | did success from 1 to 3
towait,step 2,step 3 = drop 0, gone 0 | gone left 0 from 1
run 5,step 2 = pick 0 1, run 0 5, raise 1 | did runs 0 from 1
runasync 5,step 2 = pick 0 1, begun 0 5 | did runs 0 from 1
runasync 5,step 2,step 3,step 4 = drop 0, gone 0 | gone left 0 from 1
runasync 5,step 2,poll later,step 3 = poll 0 5 later, word later | later runs 0 from 1
runasync 5,step 2,poll later,ended 3,step 4,step 5 = wait 0 success | did success from 1 to 5
deletenow,step 2 = pick 0 1, kill 0 ok, wait 0 success, raise 1 | did success from 1 to 2
deletenow,step 2,step 3 = pick 0 2, raise 2, gone 0 | gone success from 1 to 2

start,gracefulstop user1 9,step 1,step 2,close:
step 3 = word idle | idle runs 0 from 1 until 11
step 10 = word idle | idle runs 0 from 1 until 11
start,step 3 = word idle | idle runs 0 from 1 until 11
step 11 = grace 0, kill 0 ok, wait 0 success, raise 1 | did success from 1 to 11
step 11 ! 0 = grace 0, kill 0 fault 7, raise 1 | did runs 0 from 1
step 11,step 12 = gone 0 | gone success from 1 to 11
step 11,step 12 ! 0 = drop 0, gone 0 | gone left 0 from 1
ended 3 = wait 0 success, raise 1 | did success from 1 to 3
ended 3 ! 0 = wait 0 fault 7 | did runs 0 from 1 until 11
ended 3,step 4 = gone 0 | gone success from 1 to 3
ended 3,step 4 ! 0 = word idle | idle runs 0 from 1 until 11
deletenow,step 3 = pick 0 2, kill 0 ok, wait 0 success, raise 1, raise 2 | did success from 1 to 3
deletenow,step 3 ! 0 = pick 0 2, kill 0 fault 7, raise 2 | did runs 0 from 1 until 11
towait,step 3 = pick 0 2 | did runs 0 from 1 until 11 parks 1
towait,step 3,step 4 = word idle | idle runs 0 from 1 until 11 parks 1
end = drop 0, gone 0 | left 0 from 1

start,trygracefulrestart user1 9,step 1,step 2,close:
step 3 = word idle | idle runs 0 from 1 until 11
step 11 = grace 0, kill 0 ok, wait 0 success, spawn 1 0 default ---- 1 a ok, raise 1 | did runs 1 from 11
step 11,step 12 = drop 1, gone 0 | gone left 1 from 11
ended 3 = wait 0 success, spawn 1 0 default ---- 1 a ok, raise 1 | did runs 1 from 3
ended 3,step 4 = drop 1, gone 0 | gone left 1 from 3
ended 3,step 4 ! 1 = gone 0 | gone pending

start,close,step 1:
step 2 = drop 0, gone 0 | gone left 0 from 1
stop,close,step 2 = pick 0 1, kill 0 ok, wait 0 success, raise 1 | did success from 1 to 2

runasync 5,step 1,close:
step 2 = poll 0 5 ready, raise 0 | did pending
step 2,step 3 = gone 0 | gone pending
poll later,step 2 = poll 0 5 later, word later | later pending
poll later,step 2,step 3 = poll 0 5 ready, raise 0 | did pending
start,step 2,step 3 = pick 0 1, spawn 0 0 default ---- 1 a ok, raise 1 | did runs 0 from 3
end = gone 0 | pending";

#[test]
fn cases_after_a_close(rt: HostRuntime) {
    each_block(&rt, rt.alloc(), CLOSED);
}
