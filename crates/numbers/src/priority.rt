// The range of priorities, in 32-bit two's complement.
ghost use Rattle.std.specs.Prelude.{◌≡◌};
ghost use Rattle.rules.specs.Calls.{in_priority};

#[tactic(auto, unfolding(rules::specs::Calls::in_priority))]
pub fn in_priority(n: u32) -> bool
    ensures { result ≡ in_priority n }
{
    n <= 40 || 40u32.wrapping_neg() <= n
}
