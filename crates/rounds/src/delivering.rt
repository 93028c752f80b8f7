//! Tokens are delivered to the elements that they are addressed to.

ghost use Rattle.std.specs.Prelude.{◌≡◌, ◌<◌, ◌∷◌, [], List, length, All, OnOk, OnErr};
ghost use Rattle.tags.specs.declared.token.Token.{Token};
ghost use Rattle.element.specs.Holding.{fixed_of, with_more, IsFor};
ghost use Rattle.schedule.specs.State.{AllFrom, IsAt, IsNearIn, delivered};
ghost use Rattle.rounds.specs.Rounds.{lanes_held, lanes_fixed, tokens_sent, events_noted, halts_in};

use crate::turn::Turner;
use element::bundled::element_of_packed;
use element::instructions::Instructions;
use packed::token::PackedToken;
use schedule::log::Log;
use std::alloc::{AllocError, Allocator};

fn receive_one<C: Instructions, A: Allocator, L: Log>(
    turner: &mut Turner<'_, C, A, L>,
    token: PackedToken,
) -> Result<(), AllocError>
    requires { IsFor (fixed_of turner.old.lane) token }
    ensures ok { OnOk result (turner.new.lane ≡ with_more turner.old.lane (token ∷ [])) }
    ensures err { OnErr result (turner.new.lane ≡ turner.old.lane) }
    ensures sent { turner.new.sent.items ≡ turner.old.sent.items }
    ensures events { turner.new.log.events.items ≡ turner.old.log.events.items }
    ensures halt { turner.new.halt ≡ turner.old.halt }
{
    let Turner { lane, .. } = turner;
    lane.receive(token)
}

// Puts a token into the lane of its element. After an error nothing is changed.
fn receive<C: Instructions, A: Allocator, L: Log>(
    turners: &mut Vec<Turner<'_, C, A, L>, A>,
    elements: u32,
    token: PackedToken,
) -> Result<(), AllocError>
    requires some { 0 < elements }
    requires count { length turners.old.items ≡ elements }
    requires at { AllFrom (IsAt elements) 0 (lanes_held turners.old.items) }
    requires near { IsNearIn (lanes_fixed turners.old.items) token }
    ensures fixed { lanes_fixed turners.new.items ≡ lanes_fixed turners.old.items }
    ensures ok { OnOk result (lanes_held turners.new.items ≡ delivered (token ∷ []) (lanes_held turners.old.items)) }
    ensures err { OnErr result (lanes_held turners.new.items ≡ lanes_held turners.old.items) }
    ensures sent { tokens_sent turners.new.items ≡ tokens_sent turners.old.items }
    ensures events { events_noted turners.new.items ≡ events_noted turners.old.items }
    ensures halts { halts_in turners.new.items ≡ halts_in turners.old.items }
    ensures count { length turners.new.items ≡ length turners.old.items }
{
    let element = element_of_packed(&token, elements) as usize;
    let turner = &mut turners[element];
    receive_one(turner, token)
}

/// Delivers the tokens. After an error the others are still on their way.
pub fn deliver_all<C: Instructions, A: Allocator, L: Log>(
    turners: &mut Vec<Turner<'_, C, A, L>, A>,
    elements: u32,
    tokens: &mut Vec<PackedToken, A>,
) -> Result<(), AllocError>
    requires some { 0 < elements }
    requires count { length turners.old.items ≡ elements }
    requires at { AllFrom (IsAt elements) 0 (lanes_held turners.old.items) }
    requires near { All (IsNearIn (lanes_fixed turners.old.items)) tokens.old.items }
    ensures fixed { lanes_fixed turners.new.items ≡ lanes_fixed turners.old.items }
    ensures same { (rest : List Token) × (delivered rest (lanes_held turners.new.items) ≡ delivered tokens.old.items (lanes_held turners.old.items))
        × OnOk result (rest ≡ []) }
    ensures tokens { OnOk result (tokens.new.items ≡ []) }
    ensures sent { tokens_sent turners.new.items ≡ tokens_sent turners.old.items }
    ensures events { events_noted turners.new.items ≡ events_noted turners.old.items }
    ensures halts { halts_in turners.new.items ≡ halts_in turners.old.items }
    ensures count { length turners.new.items ≡ length turners.old.items }
{
    for place in 0..tokens.len() {
        let token = tokens[place];
        receive(turners, elements, token)?;
    }
    tokens.clear();
    Ok(())
}
