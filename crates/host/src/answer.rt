// How a call answers a C program: by a number, since C has no `Result`.
ghost use Rattle.std.specs.Prelude.{◌≡◌};
ghost use Rattle.refusal.specs.Numbers.{refused_by};
ghost use Rattle.host.specs.Answer.{answer_of};

use refusal::Refusal;

pub(crate) fn answer(res: Result<(), Refusal>) -> u8
    ensures { result ≡ answer_of (refused_by res) }
{
    match res {
        Ok(()) => 0,
        Err(refusal) => refusal.number(),
    }
}
