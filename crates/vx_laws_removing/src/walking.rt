// One walk in the place of select removal, merge removal and the taking of fields straight on packs.

ghost use Rattle.vx_laws_removing.specs.Walking.{WalkMakesThePasses, WalkedStructsKeepNames};

/// The walk of a strictly typed expression makes what the passes make: first each select a pack, then each merge, then fields straight
/// on packs their values.
pub fn walk_makes_the_passes()
    ensures { WalkMakesThePasses }
{}

/// A walked struct of a strictly typed expression has the names that its type had as it stood, by either typing.
pub fn walked_structs_keep_names()
    ensures { WalkedStructsKeepNames }
{}
