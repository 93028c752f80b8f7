//! Bundles of tokens that name only frames and cells that there are. It is in their type, and so a mesh gives them out as such.

ghost use Rattle.std.specs.Prelude.{◌≡◌, ◌≢◌, ◌==◌, ◌++◌, ◌∷◌, [], length, All, OnOk, OnErr, IfSome, IfNone};
ghost use Rattle.element.specs.Near.{IsNearToken};
ghost use Rattle.schedule.specs.Setting.{IsGoodSetting};
ghost use Rattle.schedule.specs.State.{setting_in};
ghost use Rattle.law_linearization.specs.History.{bounds_of};
ghost use Rattle.machine.specs.Bundles.{bounds_within};

use mesh::{Mesh, Seat};
use packed::token::PackedToken;
use schedule::main_code::MainCode;
use schedule::shape::Shape;
use std::alloc::{AllocError, Allocator};
use std::marker::Model;

/// How many frames and cells the machine has.
#[derive(Clone, Copy)]
pub struct Reach {
    pub frames: u32,
    pub cells: u32,
}

impl Reach {
    /// How much a machine of this shape has.
    pub fn of<C: MainCode>(shape: &Shape<'_, C>) -> Reach
        requires { IsGoodSetting (setting_in C.program C.width shape.now) }
        ensures { bounds_within result ≡ bounds_of (setting_in C.program C.width shape.now) }
    {
        Reach {
            frames: shape.elements * shape.frames,
            cells: shape.code.cells(),
        }
    }
}

/// Tokens that go to another element at once. They name only what is within a reach.
#[derive(Drop)]
pub struct NearBundle<A: Allocator> {
    tokens: Vec<PackedToken, A>,
    reach: Reach,
}

impl<A: Allocator> Model for NearBundle<A> {
    ghost use Rattle.std.specs.Prelude.{All};
    ghost use Rattle.element.specs.Near.{IsNearToken};
    ghost use Rattle.machine.specs.Bundles.{BundleView, bounds_within};

    ghost Value = { BundleView };

    ghost view = { λ b. record { tokens = b.tokens.items; bounds = bounds_within b.reach } };

    ghost invariant = { λ b. All (IsNearToken (bounds_within b.reach)) b.tokens.items };
}

impl<A: Allocator> mesh::Bundle for NearBundle<A> {
    ghost tokens = { λ b. b.tokens };
}

impl<A: Allocator> NearBundle<A> {
    /// An empty bundle. It takes no memory.
    pub fn new(alloc: A, reach: Reach) -> NearBundle<A>
        ensures { result ≡ record { tokens = []; bounds = bounds_within reach } }
    {
        NearBundle {
            tokens: Vec::new(alloc),
            reach,
        }
    }

    /// Empties the bundle, for tokens within this reach. It keeps its memory.
    pub fn renew(&mut self, reach: Reach)
        ensures { self.new ≡ record { tokens = []; bounds = bounds_within reach } }
    {
        self.tokens.clear();
        self.reach = reach;
    }

    /// Whether it has no token.
    pub fn is_empty(&self) -> bool
        ensures { result ≡ (length self.now.tokens == 0) }
    {
        self.tokens.is_empty()
    }

    /// Puts a token behind the others. After an error it has those that it had. The token goes there from where it lies.
    #[inline(always)]
    pub fn push(&mut self, token: &PackedToken) -> Result<(), AllocError>
        requires near { IsNearToken self.old.bounds token.now }
        ensures ok { OnOk result (self.new ≡ record { tokens = self.old.tokens ++ token.now ∷ []; bounds = self.old.bounds }) }
        ensures err { OnErr result (self.new ≡ self.old) }
    {
        self.tokens.reserve(1)?;
        self.tokens.push_reserved(*token);
        Ok(())
    }

    /// Its tokens, if they are known to be within this reach: those of a bundle that was begun for another one are not looked at.
    pub fn within(&self, reach: Reach) -> Option<&[PackedToken]>
        ensures some { IfSome result (λ tokens. (tokens.now ≡ self.now.tokens) × All (IsNearToken (bounds_within reach)) tokens.now) }
        ensures none { IfNone result (self.now.bounds ≢ bounds_within reach) }
    {
        if self.reach.frames == reach.frames && self.reach.cells == reach.cells {
            return Some(&self.tokens);
        }
        None
    }
}

/// The mesh that passes such bundles on.
pub type NearMesh<A> = Mesh<NearBundle<A>, A>;

/// The place of an element at it.
pub type NearSeat<A> = Seat<NearBundle<A>>;
