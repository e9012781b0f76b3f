//! What holds of every life of a command. The functions compute nothing: their contracts are the laws.

ghost use Rattle.std.specs.Prelude.{◌≡◌, List, [], ◌∷◌, ◌++◌};
ghost use Rattle.key_split.specs.PartModel.{PartModel};
ghost use Rattle.key_split.specs.declared.travel.Ticket.{Ticket};
ghost use Rattle.key_split.specs.declared.travel.Told.{Told};
ghost use Rattle.key_split.specs.declared.travel.Ended.{Ended};
ghost use Rattle.command_future.specs.declared.stage.Want.{Want};
ghost use Rattle.command_future.specs.declared.stage.Want.TheVariants.{Finished};
ghost use Rattle.command_future.specs.Life.{CommandEvent, IsLife, IsTold, IsWanted, HasEnd, told_in};

/// Whatever has happened to a command, what it was told follows the grammar.
pub fn follows_the_grammar()
    ensures { (ticket : Ticket) (part : PartModel) (events : List CommandEvent) → IsLife ticket part events → IsTold (told_in events) }
{}

/// Whatever has happened to it, it wants something, and one thing only.
pub fn wants_one_thing()
    ensures some { (ticket : Ticket) (part : PartModel) (events : List CommandEvent) → IsLife ticket part events → (want : Want) × IsWanted events want }
    ensures one { (events : List CommandEvent) (want other : Want) → IsWanted events want → IsWanted events other → want ≡ other }
{}

/// It has one end at most.
pub fn has_one_end()
    ensures { (told : List Told) (end other : Ended) → HasEnd told end → HasEnd told other → end ≡ other }
{}

/// After its end it wants nothing, and nothing happens to it.
pub fn ends_for_good()
    ensures wants_nothing { (events : List CommandEvent) (end : Ended) (want : Want) → HasEnd (told_in events) end → IsWanted events want → want ≡ Finished }
    ensures no_event { (ticket : Ticket) (part : PartModel) (events : List CommandEvent) (event : CommandEvent) (end : Ended) → HasEnd (told_in events) end → ¬ IsLife ticket part (events ++ event ∷ []) }
{}
