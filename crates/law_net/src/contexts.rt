//! The net of contexts, between the machine's runs and the meaning's.

ghost use Rattle.law_net.specs.ContextsPackages.{PackagesSuffice, PackagesSufficeForCode};
ghost use Rattle.law_net.specs.ContextsTheorem.{FaithGoesOn, FaithThroughPass};
ghost use Rattle.law_net.specs.ContextsExpanded.{StaticSuffices};

/// The lemmas of all packages make the theorem: a wired plan keeps faith, and so does its code; and the
/// plan of a graph is wired.
pub fn packages_suffice()
    ensures plan { PackagesSuffice }
    ensures code { PackagesSufficeForCode }
    ensures goes_on { FaithGoesOn }
    ensures passes { FaithThroughPass }
    ensures wired { StaticSuffices }
{}
