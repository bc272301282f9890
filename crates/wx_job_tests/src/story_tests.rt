// Tests of graces, restarts, waiting and deletion, move by move: what comes of each is worked out by hand.
//
// A block is the story of one job. Each of its lines, whose form `seen.rt` tells, goes on from the one before.
use crate::seen::each_block;

/// A child that ends within its grace. One that has to be killed. A grace of 0, which is over before the end that is kept
/// at the same moment. A grace whose kill fails, and a later stop. One whose wait fails. A kept end that outlives a failed
/// kill. A signal that fails.
const GRACEFUL_STOPS: &str = "\
start = asked 0 0 normal start | pending
step 1 = pick 0 0, spawn 0 0 default ---- 1 a ok, raise 0 | did runs 0 from 1
gracefulstop terminate 10000000 = asked 1 0 normal gracefulstop terminate 10000000 | runs 0 from 1
step 3 = pick 0 1, signal 0 15 ok | did runs 0 from 1 until 10000003
step 10000002 = word idle | idle runs 0 from 1 until 10000003
ended 10000002 = wait 0 success, raise 1 | did success from 1 to 10000002
step 10000003 = word idle | idle success from 1 to 10000002

start,step 1,gracefulstop hangup 10,step 2 = pick 0 1, signal 0 1 ok | did runs 0 from 1 until 12
stop,step 11 = word idle | idle runs 0 from 1 until 12
step 12 = grace 0, kill 0 ok, wait 0 success, raise 1 | did success from 1 to 12
step 12 = pick 0 2, raise 2 | did success from 1 to 12

start,gracefulstop terminate 0,step 1 = pick 0 0, spawn 0 0 default ---- 1 a ok, raise 0 | did runs 0 from 1
step 1 = pick 0 1, signal 0 15 ok | did runs 0 from 1 until 1
ended 1 = grace 0, kill 0 ok, wait 0 success, raise 1 | did success from 1 to 1
step 1 = word idle | idle success from 1 to 1

start,gracefulstop terminate 10,step 2,step 3 = pick 0 1, signal 0 15 ok | did runs 0 from 2 until 13
step 13 ! 0 = grace 0, kill 0 fault 7, raise 1 | did runs 0 from 2
stop = asked 2 0 normal stop | runs 0 from 2
step 15 = pick 0 2, kill 0 ok, wait 0 success, raise 2 | did success from 2 to 15

start,gracefulstop terminate 10,step 2,step 3 = pick 0 1, signal 0 15 ok | did runs 0 from 2 until 13
ended 13 ! 0 = grace 0, kill 0 fault 7, raise 1 | did runs 0 from 2
step 14 = wait 0 success | did success from 2 to 14
step 15 = word idle | idle success from 2 to 14

start,gracefulstop terminate 10,step 2,step 3 = pick 0 1, signal 0 15 ok | did runs 0 from 2 until 13
ended 13 ! 1 = grace 0, kill 0 ok, wait 0 fault 7, raise 1 | did runs 0 from 2
step 14 = word idle | idle runs 0 from 2
ended 15 = wait 0 success | did success from 2 to 15

start,gracefulstop quit 10,stop,step 1,step 2 ! 1 = pick 0 1, signal 0 3 fault 7, raise 1 | did runs 0 from 1
step 3 = pick 0 2, kill 0 ok, wait 0 success, raise 2 | did success from 1 to 3

gracefulstop quit 10,start,step 1 = pick 0 0, raise 0 | did pending
step 2 = pick 0 1, spawn 0 0 default ---- 1 a ok, raise 1 | did runs 0 from 2
step 11 = word idle | idle runs 0 from 2";

#[test]
fn graceful_stops(rt: HostRuntime) {
    each_block(&rt, rt.alloc(), GRACEFUL_STOPS);
}

/// A graceful restart that has to be forced: its child's end spawns nothing. One within the grace, and none after it. One
/// whose kill fails: the child's end spawns nothing then. Restarts of a child that runs or not. A restart by two controls.
/// One with a signal, whose start waits for the end of the grace.
const RESTARTS: &str = "\
start,step 1,trygracefulrestart user1 10000000 = asked 1 0 normal trygracefulrestart user1 10000000 | runs 0 from 1
step 3 = pick 0 1, signal 0 10 ok | did runs 0 from 1 until 10000003
step 10000002 = word idle | idle runs 0 from 1 until 10000003
step 10000003 = grace 0, kill 0 ok, wait 0 success, spawn 1 0 default ---- 1 a ok, raise 1 | did runs 1 from 10000003
ended 10000004 = wait 1 success | did success from 10000003 to 10000004
step 20000000 = word idle | idle success from 10000003 to 10000004

start,step 1,trygracefulrestart user2 9,step 2 = pick 0 1, signal 0 12 ok | did runs 0 from 1 until 11
ended 5 = wait 0 success, spawn 1 0 default ---- 1 a ok, raise 1 | did runs 1 from 5
step 11 = word idle | idle runs 1 from 5
ended 12 = wait 1 success | did success from 5 to 12

start,step 1,trygracefulrestart user2 9,step 2 = pick 0 1, signal 0 12 ok | did runs 0 from 1 until 11
step 11 ! 0 = grace 0, kill 0 fault 7, raise 1 | did runs 0 from 1
ended 12 = wait 0 success | did success from 1 to 12
step 13 = word idle | idle success from 1 to 12

start,step 1,trygracefulrestart user2 9,step 2 = pick 0 1, signal 0 12 ok | did runs 0 from 1 until 11
ended 3 ! 1 = wait 0 success, spawn 1 0 default ---- 1 a fault 7, raise 1 | did pending
continue,step 4 = pick 0 2, spawn 2 0 default ---- 1 a ok, raise 2 | did runs 2 from 4

tryrestart,start,tryrestart,step 1 = pick 0 0, raise 0 | did pending
step 2 = pick 0 1, spawn 0 0 default ---- 1 a ok, raise 1 | did runs 0 from 2
step 3 = pick 0 2, kill 0 ok, wait 0 success, spawn 1 0 default ---- 1 a ok, raise 2 | did runs 1 from 3
continue,step 4 = pick 0 3, kill 1 ok, wait 1 success, spawn 2 0 default ---- 1 a ok, raise 3 | did runs 2 from 4
end = drop 2, gone 0 | left 2 from 4

start,step 1,restart = asked 1 0 normal stop, asked 2 0 normal start | runs 0 from 1
step 2 = pick 0 1, kill 0 ok, wait 0 success, raise 1 | did success from 1 to 2
step 3 = pick 0 2, spawn 1 0 default ---- 1 a ok, raise 2 | did runs 1 from 3

start,step 1,restartsignal interrupt 5 = asked 1 0 normal gracefulstop interrupt 5, asked 2 0 normal start | runs 0 from 1
step 2 = pick 0 1, signal 0 2 ok | did runs 0 from 1 until 7
step 3 = word idle | idle runs 0 from 1 until 7
ended 4 = wait 0 success, raise 1 | did success from 1 to 4
step 5 = pick 0 2, spawn 1 0 default ---- 1 a ok, raise 2 | did runs 1 from 5";

#[test]
fn restarts(rt: HostRuntime) {
    each_block(&rt, rt.alloc(), RESTARTS);
}

/// A wait before the child is spawned, and one once it has ended. Waits in the order of their picks, asked at two levels.
/// A wait that outlives a failed spawn and a failed wait.
const WAITS: &str = "\
towait,start = asked 1 0 normal start | pending
step 1 = pick 0 0 | did pending parks 1
step 2 = pick 0 1, spawn 0 0 default ---- 1 a ok, raise 1 | did runs 0 from 2 parks 1
ended 3 = wait 0 success, raise 0 | did success from 2 to 3
towait = asked 2 0 high nextending | success from 2 to 3
step 4 = pick 0 2, raise 2 | did success from 2 to 3

start,step 1,nextending,stop,towait = asked 3 0 high nextending | runs 0 from 1
step 2 = pick 0 3 | did runs 0 from 1 parks 1
step 3 = pick 0 1 | did runs 0 from 1 parks 2
step 4 = pick 0 2, kill 0 ok, wait 0 success, raise 3, raise 1, raise 2 | did success from 1 to 4

towait,start,start,step 1,step 2 ! 0 = pick 0 1, spawn 0 0 default ---- 1 a fault 7, raise 1 | did pending parks 1
step 3 = pick 0 2, spawn 1 0 default ---- 1 a ok, raise 2 | did runs 1 from 3 parks 1
ended 4 ! 0 = wait 1 fault 7 | did runs 1 from 3 parks 1
ended 5 = wait 1 success, raise 0 | did success from 3 to 5";

#[test]
fn waits_for_ends(rt: HostRuntime) {
    each_block(&rt, rt.alloc(), WAITS);
}

/// An urgent deletion in a grace. Levels before the order of asks. A deletion behind a stop, and one behind a stop that
/// fails. Nothing waits, and nothing is asked, of a job that is gone.
const DELETIONS: &str = "\
start,step 1,trygracefulrestart user1 10000000,step 3 = pick 0 1, signal 0 10 ok | did runs 0 from 1 until 10000003
deletenow = asked 2 0 urgent stop, asked 3 0 urgent delete | runs 0 from 1 until 10000003
step 5 = pick 0 2, kill 0 ok, wait 0 success, raise 1, raise 2 | did success from 1 to 5
step 10000003 = pick 0 3, raise 3, gone 0 | gone success from 1 to 5
step 10000004 =  | gone success from 1 to 5

start,towait,deletenow,step 1 = pick 0 2, raise 2 | did pending
step 2 = pick 0 3, raise 3, gone 0 | gone pending
start =  | pending
deletenow =  | pending
step 3 =  | gone pending
end =  | pending

start,step 1,stopdelete = asked 1 0 normal stop, asked 2 0 normal delete | runs 0 from 1
start,step 2 = pick 0 1, kill 0 ok, wait 0 success, raise 1 | did success from 1 to 2
step 3 = pick 0 2, raise 2, gone 0 | gone success from 1 to 2
step 4 =  | gone success from 1 to 2

start,step 1,stopdelete,step 2 ! 1 = pick 0 1, kill 0 fault 7, raise 1 | did runs 0 from 1
step 3 = pick 0 2, raise 2, drop 0, gone 0 | gone left 0 from 1
step 4 =  | gone left 0 from 1

start,step 1,gracefulstop quit 5,step 2,towait,step 3,deletenow,step 4 ! 2 = pick 0 3, kill 0 fault 7, raise 3 | did runs 0 from 1 until 7 parks 1
step 5 = pick 0 4, raise 4, drop 0, gone 0 | gone left 0 from 1
step 7 =  | gone left 0 from 1";

#[test]
fn deletions(rt: HostRuntime) {
    each_block(&rt, rt.alloc(), DELETIONS);
}

/// A case is given up behind a hook without memory, and its ticket is never raised. Later steps go on.
const GIVEN_UP: &str = "\
start,sethook 9,step 1,step 2,trygracefulrestart quit 5,step 3 = pick 0 2, signal 0 3 ok | did runs 0 from 1 until 8
towait,step 4 = pick 0 3 | did runs 0 from 1 until 8 parks 1
step 8 = grace 0, kill 0 ok, wait 0 success, raise 3, hook 0 9 memory | memory pending
step 9 = word idle | idle pending
unsethook,tryrestart,continue,step 10 = pick 0 4, raise 4 | did pending
step 11 = pick 0 5, raise 5 | did pending
step 12 = pick 0 6, spawn 1 0 default ---- 1 a ok, raise 6 | did runs 1 from 12

start,sethook 9,step 1,step 2,tryrestart,start,step 3 = pick 0 2, kill 0 ok, wait 0 success, hook 0 9 memory | memory pending
step 4 = pick 0 3, hook 0 9 memory | memory pending
delete,step 5 = pick 0 4, raise 4, gone 0 | gone pending";

#[test]
fn cases_that_are_given_up(rt: HostRuntime) {
    each_block(&rt, rt.alloc(), GIVEN_UP);
}

/// Each signal by its number on the system, one without such a number as 15, also at the front of a grace. Graces whose
/// ends lie at and behind the last moment there is.
const NUMBERS: &str = "\
start,step 1,signal hangup,step 2 = pick 0 1, signal 0 1 ok, raise 1 | did runs 0 from 1
signal interrupt,step 2 = pick 0 2, signal 0 2 ok, raise 2 | did runs 0 from 1
signal quit,step 2 = pick 0 3, signal 0 3 ok, raise 3 | did runs 0 from 1
signal forcestop,step 2 = pick 0 4, signal 0 9 ok, raise 4 | did runs 0 from 1
signal user1,step 2 = pick 0 5, signal 0 10 ok, raise 5 | did runs 0 from 1
signal user2,step 2 = pick 0 6, signal 0 12 ok, raise 6 | did runs 0 from 1
signal terminate,step 2 = pick 0 7, signal 0 15 ok, raise 7 | did runs 0 from 1
signal continue,step 2 = pick 0 8, signal 0 18 ok, raise 8 | did runs 0 from 1
signal suspend,step 2 = pick 0 9, signal 0 20 ok, raise 9 | did runs 0 from 1
signal custom.1,step 2 = pick 0 10, signal 0 1 ok, raise 10 | did runs 0 from 1
signal custom.31,step 2 = pick 0 11, signal 0 31 ok, raise 11 | did runs 0 from 1
signal custom.32,step 2 = pick 0 12, signal 0 15 ok, raise 12 | did runs 0 from 1
signal custom.0,step 2 = pick 0 13, signal 0 15 ok, raise 13 | did runs 0 from 1
signal custom.-1,step 2 = pick 0 14, signal 0 15 ok, raise 14 | did runs 0 from 1
trygracefulrestart custom.31 0,step 2 = pick 0 15, signal 0 31 ok | did runs 0 from 1 until 2
step 2 = grace 0, kill 0 ok, wait 0 success, spawn 1 0 default ---- 1 a ok, raise 15 | did runs 1 from 2
gracefulstop custom.0 0,step 2 = pick 0 16, signal 1 15 ok | did runs 1 from 2 until 2

start,step 1,gracefulstop terminate 18446744073709551615,step 0 = pick 0 1, signal 0 15 ok | did runs 0 from 1 until 18446744073709551615
step 18446744073709551614 = word idle | idle runs 0 from 1 until 18446744073709551615
step 18446744073709551615 = grace 0, kill 0 ok, wait 0 success, raise 1 | did success from 1 to 18446744073709551615

start,step 18446744073709551615,gracefulstop terminate 1,step 18446744073709551615 = pick 0 1, signal 0 15 ok | did runs 0 from 18446744073709551615 until 18446744073709551616
step 18446744073709551615 = word idle | idle runs 0 from 18446744073709551615 until 18446744073709551616
ended 18446744073709551615 = wait 0 success, raise 1 | did success from 18446744073709551615 to 18446744073709551615

start,step 1,trygracefulrestart quit 18446744073709551615,step 18446744073709551615 = pick 0 1, signal 0 3 ok | did runs 0 from 1 until 36893488147419103230
step 18446744073709551615 = word idle | idle runs 0 from 1 until 36893488147419103230";

#[test]
fn numbers_and_moments(rt: HostRuntime) {
    each_block(&rt, rt.alloc(), NUMBERS);
}
