// The trials.

/// A change of what stands at a name of the folder.
#[derive(Clone, Copy)]
pub enum Change {
    /// A file is written.
    Write,
    /// A new folder is made.
    Folder,
    /// A file that was written outside takes the place.
    Save,
    /// The file is removed.
    Remove,
}

/// A trial: a run of a command over a folder that holds a file `old`.
pub struct Trial {
    pub shows: &'static str,
    /// What is run, with the file that it makes longer as its argument.
    pub program: &'static str,
    /// What a shell does, with this file as its name, and the folder as its argument.
    pub script: &'static str,
    /// Patterns of what is ignored in the folder.
    pub ignores: &'static [&'static str],
    /// What happens while it runs. Each change is made again where the command doesn't run again within a while.
    pub changes: &'static [(Change, &'static str)],
    /// Whether a `q` ends the run. Else the input ends alone.
    pub quits: bool,
    pub turns: u64,
    /// For each of these beginnings and parts, some line of the journal has both.
    pub lines: &'static [(&'static str, &'static str)],
    /// How often the command runs at least.
    pub runs: usize,
    /// How often it runs at most.
    pub most: usize,
}

/// More often than the command can run.
const ANY: usize = 1_000_000;

/// More turns than a run takes that a `q` ends.
const MANY: u64 = 4000;

/// A shell makes a file longer by one byte.
const RUNS: &str = "echo >> \"$0\"";

/// And it writes into a folder `out` and a file beside it.
const RUNS_AND_WRITES: &str =
    "echo >> \"$0\"; mkdir -p \"$1/out\"; echo >> \"$1/out/a\"; echo >> \"$1/a.tmp\"";

pub const TRIALS: &[Trial] = &[
    Trial {
        shows: "a file is written",
        program: "sh",
        script: RUNS,
        ignores: &[],
        changes: &[(Change::Write, "new")],
        quits: true,
        turns: MANY,
        lines: &[("offer ", "/new ")],
        runs: 2,
        most: ANY,
    },
    Trial {
        shows: "a file is written in a new folder",
        program: "sh",
        script: RUNS,
        ignores: &[],
        changes: &[(Change::Folder, "below"), (Change::Write, "below/new")],
        quits: true,
        turns: MANY,
        lines: &[("offer ", "/below "), ("offer ", "/below/new ")],
        runs: 3,
        most: ANY,
    },
    Trial {
        shows: "a file is saved by a rename",
        program: "sh",
        script: RUNS,
        ignores: &[],
        changes: &[(Change::Save, "old")],
        quits: true,
        turns: MANY,
        lines: &[("offer ", "/old ")],
        runs: 2,
        most: ANY,
    },
    Trial {
        shows: "a file is removed",
        program: "sh",
        script: RUNS,
        ignores: &[],
        changes: &[(Change::Remove, "old")],
        quits: true,
        turns: MANY,
        lines: &[("offer ", "/old ")],
        runs: 2,
        most: ANY,
    },
    Trial {
        shows: "a file is written whose name has a space and a line feed",
        program: "sh",
        script: RUNS,
        ignores: &[],
        changes: &[(Change::Write, "a b\nc")],
        quits: true,
        turns: MANY,
        lines: &[("offer ", "/a%20b%0Ac ")],
        runs: 2,
        most: ANY,
    },
    Trial {
        shows: "a command that isn't there",
        program: "/nowhere/sh",
        script: RUNS,
        ignores: &[],
        changes: &[],
        quits: true,
        turns: MANY,
        lines: &[("spawn 0 ", " fault 2"), ("turn ", " keys 1 113")],
        runs: 0,
        most: ANY,
    },
    Trial {
        shows: "the input ends, and then the turns",
        program: "sh",
        script: RUNS,
        ignores: &[],
        changes: &[],
        quits: false,
        turns: 200,
        lines: &[("turn ", " keys 0"), ("turn ", " last")],
        runs: 1,
        most: 1,
    },
    Trial {
        shows: "forty turns in which nothing changes",
        program: "sh",
        script: RUNS,
        ignores: &[],
        changes: &[],
        quits: false,
        turns: 40,
        lines: &[("spawn 0 0 default ", " ok"), ("end ok lost 0", "")],
        runs: 1,
        most: 1,
    },
    Trial {
        shows: "a command that changes just what is ignored runs once",
        program: "sh",
        script: RUNS_AND_WRITES,
        ignores: &["out", "*.tmp"],
        changes: &[],
        quits: false,
        turns: 600,
        lines: &[("dir 0 ", "/out reject"), ("filter 0 ", " reject")],
        runs: 1,
        most: 1,
    },
    Trial {
        shows: "and again where another file changes",
        program: "sh",
        script: RUNS_AND_WRITES,
        ignores: &["/out/", "*.tmp", "!new.tmp"],
        changes: &[(Change::Write, "new.tmp")],
        quits: true,
        turns: MANY,
        lines: &[("offer ", "/new.tmp "), ("dir 0 ", "/out reject")],
        runs: 2,
        most: ANY,
    },
];
