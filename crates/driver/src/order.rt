//! The order of a run's events.

ghost use Rattle.std.specs.Prelude.{◌≡◌};
ghost use Rattle.driver.specs.Orders.{order_of};

use mode::Mode;
use schedule::take::Take;

/// In which order the events of a run are made.
#[derive(Clone, Copy, Debug, PartialEq, Eq)]
pub enum Order {
    /// The elements take turns on one thread, one event each, and take their tokens in this order.
    InTurn(Take),
    /// In rounds, each element in a thread of its own. They take their tokens in this order.
    InRounds(Take),
    /// Free, each element in a thread of its own for the whole run. They take their tokens in this order.
    Free(Take),
}

impl Order {
    /// The order of this mode, with this order of the tokens.
    pub fn in_mode(mode: Mode, take: Take) -> Order
        ensures { result ≡ order_of mode take }
    {
        match mode {
            Mode::One => Order::InTurn(take),
            Mode::Rounds => Order::InRounds(take),
            Mode::Free => Order::Free(take),
        }
    }
}
