// Stories of jobs with the state before, and with what hooks and functions are shown: worked out by hand, move by move.
use crate::player::job_in;
use crate::seen::{each_block, expect_story};
use crate::test_world::new_world;
use wx_control::Id;

/// A job that starts and stops. One that is restarted at once, by the end of its child, and by the end of a grace, and then deleted.
const STATES: &str = "\
ends error.1,start = asked 0 0 normal start | pending after none
stop = asked 1 0 normal stop | pending after none
step 1 = pick 0 0, spawn 0 0 default ---- 1 a ok, raise 0 | did runs 0 from 1 after pending
step 3 = pick 0 1, kill 0 ok, wait 0 error.1, raise 1 | did error.1 from 1 to 3 after pending
end = gone 0 | error.1 from 1 to 3 after pending
start =  | error.1 from 1 to 3 after pending
end =  | error.1 from 1 to 3 after pending
step 4 =  | gone error.1 from 1 to 3 after pending

ends error.1,start,step 1,tryrestart,step 2 = pick 0 1, kill 0 ok, wait 0 error.1, spawn 1 0 default ---- 1 a ok, raise 1 | did runs 1 from 2 after error.1 from 1 to 2
trygracefulrestart quit 5,step 3,towait,step 4 = pick 0 3 | did runs 1 from 2 until 8 parks 1 after error.1 from 1 to 2
ended 5 = wait 1 success, raise 3, spawn 2 0 default ---- 1 a ok, raise 2 | did runs 2 from 5 after success from 2 to 5
trygracefulrestart quit 5,step 6,step 11 = grace 0, kill 2 ok, wait 2 success, spawn 3 0 default ---- 1 a ok, raise 4 | did runs 3 from 11 after success from 5 to 11
delete,step 12 = pick 0 5, raise 5, drop 3, gone 0 | gone left 3 from 11 after success from 5 to 11";

#[test]
fn states_and_those_before(rt: HostRuntime) {
    each_block(&rt, rt.alloc(), STATES);
}

/// Four controls are asked, and then four steps done: all is well, or one of the calls on the host fails.
const CALLS_THAT_FAIL: &str = "\
start = asked 0 0 normal start | pending
stop = asked 1 0 normal stop | pending
start = asked 2 0 normal start | pending
stop = asked 3 0 normal stop | pending
step 1 = pick 0 0, spawn 0 0 default ---- 1 a ok, raise 0 | did runs 0 from 1 after pending
step 2 = pick 0 1, kill 0 ok, wait 0 success, raise 1 | did success from 1 to 2 after pending
step 3 = pick 0 2, spawn 1 0 default ---- 1 a ok, raise 2 | did runs 1 from 3 after success from 1 to 2
step 4 = pick 0 3, kill 1 ok, wait 1 success, raise 3 | did success from 3 to 4 after success from 1 to 2

start,stop,start,stop,step 1 ! 0 = pick 0 0, spawn 0 0 default ---- 1 a fault 7, raise 0 | did pending after pending
step 2 = pick 0 1, raise 1 | did pending after pending
step 3 = pick 0 2, spawn 1 0 default ---- 1 a ok, raise 2 | did runs 1 from 3 after pending
step 4 = pick 0 3, kill 1 ok, wait 1 success, raise 3 | did success from 3 to 4 after pending

start,stop,start,stop,step 1 = pick 0 0, spawn 0 0 default ---- 1 a ok, raise 0 | did runs 0 from 1 after pending
step 2 ! 0 = pick 0 1, kill 0 fault 7, raise 1 | did runs 0 from 1 after pending
step 3 = pick 0 2, raise 2 | did runs 0 from 1 after pending
step 4 = pick 0 3, kill 0 ok, wait 0 success, raise 3 | did success from 1 to 4 after pending

start,stop,start,stop,step 1 = pick 0 0, spawn 0 0 default ---- 1 a ok, raise 0 | did runs 0 from 1 after pending
step 2 ! 1 = pick 0 1, kill 0 ok, wait 0 fault 7, raise 1 | did runs 0 from 1 after pending
step 3 = pick 0 2, raise 2 | did runs 0 from 1 after pending
step 4 = pick 0 3, kill 0 ok, wait 0 success, raise 3 | did success from 1 to 4 after pending

start,stop,start,stop,step 1 = pick 0 0, spawn 0 0 default ---- 1 a ok, raise 0 | did runs 0 from 1 after pending
step 2 = pick 0 1, kill 0 ok, wait 0 success, raise 1 | did success from 1 to 2 after pending
step 3 ! 0 = pick 0 2, spawn 1 0 default ---- 1 a fault 7, raise 2 | did pending after success from 1 to 2
step 4 = pick 0 3, raise 3 | did pending after success from 1 to 2

start,stop,start,stop,step 1,step 2,step 3 = pick 0 2, spawn 1 0 default ---- 1 a ok, raise 2 | did runs 1 from 3 after success from 1 to 2
step 4 ! 0 = pick 0 3, kill 1 fault 7, raise 3 | did runs 1 from 3 after success from 1 to 2

start,stop,start,stop,step 1,step 2,step 3 = pick 0 2, spawn 1 0 default ---- 1 a ok, raise 2 | did runs 1 from 3 after success from 1 to 2
step 4 ! 1 = pick 0 3, kill 1 ok, wait 1 fault 7, raise 3 | did runs 1 from 3 after success from 1 to 2";

#[test]
fn calls_that_fail(rt: HostRuntime) {
    each_block(&rt, rt.alloc(), CALLS_THAT_FAIL);
}

/// A spawn hook that adds a word, one that was unset, and what spawns. Hooks are shown the state behind the end of the child.
const HOOKS: &str = "\
word -v,start,stop,sethook 2 = asked 2 0 normal sethook 2 | pending after none; none
setspawn 7 = asked 3 0 normal setspawn 7 | pending
start = asked 4 0 normal start | pending
step 1 = pick 0 0, spawn 0 0 default ---- 1 a ok, raise 0 | did runs 0 from 1 after pending; none
step 2 = pick 0 1, kill 0 ok, wait 0 success, raise 1 | did success from 1 to 2
step 3 = pick 0 2, raise 2 | did success from 1 to 2
step 4 = pick 0 3, raise 3 | did success from 1 to 2
step 5 = pick 0 4, hook 0 2 ---- 2 a -v, spawn 1 0 command.7 ---- 2 a -v ok, raise 4 | did runs 1 from 5 after success from 1 to 2; a pending after success from 1 to 2

word -v,sethook 2 = asked 0 0 normal sethook 2 | pending
unsethook = asked 1 0 normal unsethook | pending
start = asked 2 0 normal start | pending
step 1 = pick 0 0, raise 0 | did pending
step 2 = pick 0 1, raise 1 | did pending
step 3 = pick 0 2, spawn 0 0 default ---- 1 a ok, raise 2 | did runs 0 from 3 after pending; none

word -v,setspawn 7 = asked 0 0 normal setspawn 7 | pending
setchild 5 = asked 1 0 normal setchild 5 | pending
start,stop,setspawn 1 = asked 4 0 normal setspawn 1 | pending
clearspawn = asked 5 0 normal clearspawn | pending
start = asked 6 0 normal start | pending
step 1 = pick 0 0, raise 0 | did pending
step 2 = pick 0 1, raise 1 | did pending
step 3 = pick 0 2, spawn 0 0 child.5 ---- 1 a ok, raise 2 | did runs 0 from 3 after pending
step 4 = pick 0 3, kill 0 ok, wait 0 success, raise 3 | did success from 3 to 4
step 5 = pick 0 4, raise 4 | did success from 3 to 4
step 6 = pick 0 5, raise 5 | did success from 3 to 4
step 7 = pick 0 6, spawn 1 0 default ---- 1 a ok, raise 6 | did runs 1 from 7 after success from 3 to 4; none";

#[test]
fn spawn_hooks_and_what_spawns(rt: HostRuntime) {
    each_block(&rt, rt.alloc(), HOOKS);
}

/// Functions that are called, before a child is spawned and while it runs, and one that is begun behind its end.
const FUNCTIONS: &str = "\
run 5 = asked 0 0 normal run 5 | pending
step 1 = pick 0 0, run 0 5, raise 0 | did pending after none; a pending after none

run 5 = asked 0 0 normal run 5 | pending
start,run 6 = asked 2 0 normal run 6 | pending
step 1 = pick 0 0, run 0 5, raise 0 | did pending after none; a pending after none
step 2 = pick 0 1, spawn 0 0 default ---- 1 a ok, raise 1 | did runs 0 from 2 after pending
step 3 = pick 0 2, run 0 6, raise 2 | did runs 0 from 2 after pending; a runs 0 from 2 after pending

start,stop,runasync 5 = asked 2 0 normal runasync 5 | pending
poll later,step 1 = pick 0 0, spawn 0 0 default ---- 1 a ok, raise 0 | did runs 0 from 1 after pending; none
step 2 = pick 0 1, kill 0 ok, wait 0 success, raise 1 | did success from 1 to 2 after pending; none
step 3 = pick 0 2, begun 0 5 | did success from 1 to 2 after pending; a success from 1 to 2 after pending
step 4 = poll 0 5 later, word later | later success from 1 to 2
step 5 = poll 0 5 ready, raise 2 | did success from 1 to 2 after pending; a success from 1 to 2 after pending";

#[test]
fn functions_and_what_they_are_shown(rt: HostRuntime) {
    each_block(&rt, rt.alloc(), FUNCTIONS);
}

/// The hook of number 9 has no memory. Other hooks go on, and the word is added by the first that has memory.
const WITHOUT_MEMORY: &str = "\
word -v,start,stop,sethook 9 = asked 2 0 normal sethook 9 | pending
start = asked 3 0 normal start | pending
step 1 = pick 0 0, spawn 0 0 default ---- 1 a ok, raise 0 | did runs 0 from 1
step 2 = pick 0 1, kill 0 ok, wait 0 success, raise 1 | did success from 1 to 2
step 3 = pick 0 2, raise 2 | did success from 1 to 2
step 4 = pick 0 3, hook 0 9 memory | memory pending after success from 1 to 2; a pending after success from 1 to 2

word -v,sethook 9 = asked 0 0 normal sethook 9 | pending
start,start,sethook 2 = asked 3 0 normal sethook 2 | pending
start = asked 4 0 normal start | pending
step 1 = pick 0 0, raise 0 | did pending
step 2 = pick 0 1, hook 0 9 memory | memory pending
step 3 = pick 0 2, hook 0 9 memory | memory pending
step 4 = pick 0 3, raise 3 | did pending
step 5 = pick 0 4, hook 0 2 ---- 2 a -v, spawn 0 0 default ---- 2 a -v ok, raise 4 | did runs 0 from 5 after pending; a pending after pending";

#[test]
fn spawn_hooks_without_memory(rt: HostRuntime) {
    each_block(&rt, rt.alloc(), WITHOUT_MEMORY);
}

/// Job 1 ends while its child runs and a stop waits.
const FIRST: &str = "\
start = asked 0 1 normal start | pending
step 1 = pick 1 0, spawn 0 1 default ---- 1 a ok, raise 0 | did runs 0 from 1
stop = asked 1 1 normal stop | runs 0 from 1
end = drop 0, gone 1 | left 0 from 1";

/// Job 0 is made in the same world, starts and stops.
const SECOND: &str = "\
start,stop = asked 3 0 normal stop | pending after none
step 2 = pick 0 2, spawn 1 0 default ---- 1 a ok, raise 2 | did runs 1 from 2 after pending
step 3 = pick 0 3, kill 1 ok, wait 1 success, raise 3 | did success from 2 to 3 after pending
step 4 = word idle | idle success from 2 to 3";

#[test]
fn a_job_behind_another(rt: HostRuntime) {
    let world = new_world(rt.alloc()).expect(&rt, "a world");
    let mut first = job_in(&rt, rt.alloc(), Id(1), world);
    expect_story(&rt, rt.alloc(), &mut first, FIRST);
    let mut second = job_in(&rt, rt.alloc(), Id(0), first.into_world());
    expect_story(&rt, rt.alloc(), &mut second, SECOND);
    drop(second);
}
