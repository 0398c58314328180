//! Deeds that answer.
ghost use Rattle.std.specs.Prelude.{◌≡◌, ◌∷◌, [], ◌<◌};
ghost use Rattle.gate_answers.specs.Answers.{IsCommandMessage, answer_of, instruction_in, body_in};
ghost use Rattle.gate_link.specs.Link.{link_served};
ghost use Rattle.node_machine.specs.Controller.{link_deeds};
ghost use Rattle.node_deeds.specs.Shown.{Handling, deeds_shown};
ghost use Rattle.node_deeds.specs.Cores.{AreDoable};
ghost use Rattle.node_deeds.specs.declared.deeds.Deed.TheVariants as kept;

use crate::deeds::{Deed, Deeds};
use gate_answers::{Answer, Response, refused};

/// The message is dropped.
pub(crate) fn dropped(deeds: &mut Deeds, pipe: u8)
    requires none { deeds.old.items ≡ [] }
    ensures { deeds.new.items ≡ kept.Drops pipe ∷ [] }
{
    deeds.push(Deed::Drops { pipe });
}

/// The message goes on to a host.
pub(crate) fn passed_on(deeds: &mut Deeds, host: u8)
    requires none { deeds.old.items ≡ [] }
    ensures { deeds.new.items ≡ kept.PassesOn host ∷ [] }
{
    deeds.push(Deed::PassesOn { host });
}

/// An answer to a host on the pipe of its command.
pub(crate) fn answered(deeds: &mut Deeds, host: u8, pipe: u8, message: Answer)
    requires none { deeds.old.items ≡ [] }
    ensures { deeds.new.items ≡ kept.Sends host pipe message ∷ [] }
{
    deeds.push(Deed::Sends {
        host,
        pipe,
        message,
    });
}

/// An answer of this code alone.
pub(crate) fn refused_on(deeds: &mut Deeds, host: u8, pipe: u8, response: Response)
    requires none { deeds.old.items ≡ [] }
    ensures { deeds.new.items ≡ kept.Sends host pipe (record { items = answer_of response [] }) ∷ [] }
{
    answered(deeds, host, pipe, refused(response));
}

/// The answer of the link management gate of an end, and REC_ERROR where it is set.
pub(crate) fn link_answered(deeds: &mut Deeds, errors: u16, host: u8, pipe: u8, message: &[u8])
    requires pipe { pipe < 112 }
    requires command { IsCommandMessage message.now }
    requires none { deeds.old.items ≡ [] }
    ensures deeds { (a : Handling) → deeds_shown a deeds.new.items
        ≡ link_deeds host pipe (link_served errors (instruction_in message.now) (body_in message.now)) }
    ensures doable { AreDoable deeds.new.items }
{
    let (answer, set) = gate_link::serve(errors, message);
    match set {
        Some(errors) => {
            deeds.push(Deed::SetsErrors { errors });
            deeds.push(Deed::Sends {
                host,
                pipe,
                message: answer,
            });
        }
        None => answered(deeds, host, pipe, answer),
    }
}

/// What stands behind the header of a message.
pub(crate) fn body_in(message: &[u8]) -> &[u8]
    ensures { result.now ≡ body_in message.now }
{
    match message {
        [] => &[],
        [_, body @ ..] => body,
    }
}
