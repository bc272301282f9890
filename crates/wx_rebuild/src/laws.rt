// Why a replay asks for a rebuild of the backend.
ghost use Rattle.std.specs.Prelude.{◌≡◌, true, List};
ghost use Rattle.wx_rebuild.specs.Asked.{ReplayAsksFor};
ghost use Rattle.wx_recursor.specs.Rebuilds.{replayed};
ghost use Rattle.wx_recursor.specs.States.{RecursorState};
ghost use Rattle.wx_recursor.specs.declared.answers.Watched.{Watched};

/// Whatever the calls answer, a replay asks for a rebuild only where one was asked for before, or a watch of it failed.
pub fn replays_ask_for_causes()
    ensures { (answers : List Watched) (s : RecursorState) → (replayed answers s).asks_rebuild ≡ true → ReplayAsksFor answers s }
{}
