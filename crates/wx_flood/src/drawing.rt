// Numbers that are drawn one after another.
ghost use Rattle.std.specs.Prelude.{◌≡◌, ◌<◌};
ghost use Rattle.wx_flood.specs.Draws.{next, number};

/// Draws a number below the limit. The state goes on to that of the next draw.
#[tactic(auto, using(crate::proofs::DrawLaws::cut_twice))]
pub(crate) fn draw(state: &mut u64, limit: u64) -> u64
    requires { 0 < limit }
    ensures goes_on { state.new ≡ next state.old }
    ensures drawn { result ≡ number limit state.new }
{
    *state = state
        .wrapping_mul(6_364_136_223_846_793_005)
        .wrapping_add(1_442_695_040_888_963_407);
    (*state >> 33) % limit
}
