// Runs whose acts run a command again: the lines of the calls are worked out by the rules that `LiveAction` tells.
use crate::trial::{Run, expect_run};
use std::alloc::Global;
use std::process::Abort;
use std::test::Fail;
use wx_follow_trial::command_of;
use wx_live_action::LiveAction;

const RUNS: [Run; 14] = [
    (
        "the first batch creates the job and starts it",
        "turn 0 arrive urgent 0\nturn 0 work\n",
        "hand 0 1 0 create 0 exec ---- 1 a ask 0 start\n",
    ),
    (
        "so it does with the key q",
        "turn 0 keys 1 113\nturn 0 work\nturn 10 work\n",
        "filter 0 0 pass\nhand 0 1 0 create 0 exec ---- 1 a ask 0 start\n",
    ),
    (
        "and where it holds the end of the input alone",
        "turn 0 keys 0\nturn 0 work\nturn 10 work\n",
        "filter 0 0 pass\nhand 0 1 0 create 0 exec ---- 1 a ask 0 start\n",
    ),
    (
        "each later batch restarts the command",
        "turn 0 arrive urgent 0\nturn 0 work\nturn 1 arrive normal 2 source filesystem path /w/a file\nturn 1 work\nturn 11 work\nturn 12 arrive urgent 0\nturn 12 work\n",
        "hand 0 1 0 create 0 exec ---- 1 a ask 0 start\nfilter 0 1 pass\nhand 0 1 1 ask 0 restartsignal terminate 5000000000\nhand 0 1 2 ask 0 restartsignal terminate 5000000000\n",
    ),
    (
        "the key q ends the run, in ten seconds",
        "turn 0 arrive urgent 0\nturn 0 work\nturn 1 keys 1 113\nturn 1 work\nturn 11 work\n",
        "hand 0 1 0 create 0 exec ---- 1 a ask 0 start\nfilter 0 1 pass\nhand 0 1 1 quitgracefully terminate 10000000000\n",
    ),
    (
        "also before the end of the input",
        "turn 0 arrive urgent 0\nturn 0 work\nturn 1 keys 2 113 4\nturn 1 work\nturn 1 work\nturn 11 work\n",
        "hand 0 1 0 create 0 exec ---- 1 a ask 0 start\nfilter 0 1 pass\nfilter 0 2 pass\nhand 0 2 1 2 quitgracefully terminate 10000000000\n",
    ),
    (
        "and behind another key",
        "turn 0 arrive urgent 0\nturn 0 work\nturn 1 keys 2 97 113\nturn 1 work\nturn 1 work\nturn 11 work\n",
        "hand 0 1 0 create 0 exec ---- 1 a ask 0 start\nfilter 0 1 pass\nfilter 0 2 pass\nhand 0 2 1 2 quitgracefully terminate 10000000000\n",
    ),
    (
        "q with Ctrl is another key",
        "turn 0 arrive urgent 0\nturn 0 work\nturn 1 keys 1 17\nturn 1 work\nturn 11 work\n",
        "hand 0 1 0 create 0 exec ---- 1 a ask 0 start\nfilter 0 1 pass\nhand 0 1 1 ask 0 restartsignal terminate 5000000000\n",
    ),
    (
        "and so is a great Q",
        "turn 0 arrive urgent 0\nturn 0 work\nturn 1 keys 1 81\nturn 1 work\nturn 11 work\n",
        "hand 0 1 0 create 0 exec ---- 1 a ask 0 start\nfilter 0 1 pass\nhand 0 1 1 ask 0 restartsignal terminate 5000000000\n",
    ),
    (
        "the end of the input alone does nothing",
        "turn 0 arrive urgent 0\nturn 0 work\nturn 1 keys 0\nturn 1 work\nturn 11 work\n",
        "hand 0 1 0 create 0 exec ---- 1 a ask 0 start\nfilter 0 1 pass\nhand 0 1 1\n",
    ),
    (
        "also where it stands there twice",
        "turn 0 arrive urgent 0\nturn 0 work\nturn 1 arrive normal 2 source keyboard key eof\nturn 1 keys 1 3\nturn 1 work\nturn 1 work\nturn 11 work\n",
        "hand 0 1 0 create 0 exec ---- 1 a ask 0 start\nfilter 0 1 pass\nfilter 0 2 pass\nhand 0 2 1 2\n",
    ),
    (
        "but not behind another key",
        "turn 0 arrive urgent 0\nturn 0 work\nturn 1 keys 2 97 4\nturn 1 work\nturn 1 work\nturn 11 work\n",
        "hand 0 1 0 create 0 exec ---- 1 a ask 0 start\nfilter 0 1 pass\nfilter 0 2 pass\nhand 0 2 1 2 ask 0 restartsignal terminate 5000000000\n",
    ),
    (
        "and not before a change",
        "turn 0 arrive urgent 0\nturn 0 work\nturn 1 keys 0\nturn 1 arrive normal 2 source filesystem path /w/a file\nturn 1 work\nturn 1 work\nturn 11 work\n",
        "hand 0 1 0 create 0 exec ---- 1 a ask 0 start\nfilter 0 1 pass\nfilter 0 2 pass\nhand 0 2 1 2 ask 0 restartsignal terminate 5000000000\n",
    ),
    (
        "behind it a change restarts the command",
        "turn 0 arrive urgent 0\nturn 0 work\nturn 1 keys 0\nturn 1 work\nturn 11 work\nturn 12 arrive urgent 0\nturn 12 work\n",
        "hand 0 1 0 create 0 exec ---- 1 a ask 0 start\nfilter 0 1 pass\nhand 0 1 1\nhand 0 1 2 ask 0 restartsignal terminate 5000000000\n",
    ),
];

/// Holds this run to what it is to be.
fn expect_live(rt: &impl Abort, alloc: Global, run: &Run) -> Result<(), Fail> {
    let command = command_of(alloc, b"a")?;
    expect_run(rt, alloc, run, LiveAction::new(alloc, command), false)
}

#[test]
fn a_command_runs_again_at_each_batch(rt: HostRuntime) -> Result<(), Fail> {
    for run in &RUNS {
        expect_live(&rt, rt.alloc(), run)?;
    }
    Ok(())
}
