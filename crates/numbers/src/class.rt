// The three classes of call numbers. Not `From<u16> for Class`: that would have to stand beside the type, in `rules`.
ghost use Rattle.std.specs.Prelude.{◌≡◌};
ghost use Rattle.rules.specs.Calls.{class_of};

use rules::calls::*;

#[tactic(auto, unfolding(rules::specs::Calls::class_of, rules::specs::Calls::class_among, rules::specs::Calls::modelled, rules::specs::Calls::listed))]
pub fn class_of(n: u16) -> Class
    ensures { result ≡ class_of n }
{
    match n {
        0x34 => Class::Modelled(Call::Own(OwnCall::GetUser)),
        0x35 => Class::Modelled(Call::Own(OwnCall::SetUser)),
        0x36 => Class::Modelled(Call::Own(OwnCall::GetGroup)),
        0x37 => Class::Modelled(Call::Own(OwnCall::SetGroup)),
        0x38 => Class::Modelled(Call::Own(OwnCall::GetPrior)),
        0x39 => Class::Modelled(Call::Own(OwnCall::SetPrior)),
        0x3A => Class::Modelled(Call::Own(OwnCall::GetProc)),
        0x3E => Class::Modelled(Call::Lock),
        0x3F => Class::Modelled(Call::Unlock),
        0x40 => Class::Modelled(Call::Own(OwnCall::Signal)),
        0x41 => Class::Modelled(Call::Kill),
        0x42 => Class::Modelled(Call::Own(OwnCall::Sleep)),
        0x43 => Class::Modelled(Call::Own(OwnCall::Alarm)),
        0x44 => Class::Modelled(Call::Own(OwnCall::Pause)),
        0x46 => Class::Modelled(Call::Exit),
        0x48 => Class::Modelled(Call::FShell),
        0x51 => Class::Modelled(Call::Indirect),
        0x00..=0x0E | 0x10..=0x19 | 0x1B | 0x1C | 0x20..=0x29 | 0x30..=0x33 => Class::NotModelled,
        0x45 | 0x47 | 0x49 | 0x4B | 0x4C | 0x4E | 0x50 | 0x52..=0x56 => Class::NotModelled,
        _ => Class::BadCall,
    }
}
