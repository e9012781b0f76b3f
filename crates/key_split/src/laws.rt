//! What holds of plans and of the words for a node, for every request.

ghost use Rattle.key_split.specs.Laws.{PlannedBack, PlansArePlain, PutBack, TogetherBySlot};

/// The keys of the parts, put back by their places, are the keys of the request, each once.
pub fn keys_are_put_back()
    ensures { PutBack }
{}

/// Two keys of a request are in one part exactly where they have one slot.
pub fn keys_of_one_slot_are_together()
    ensures { TogetherBySlot }
{}

/// The words of a plain part are planned as that part.
pub fn node_words_are_planned_back()
    ensures { PlannedBack }
{}

/// Each part of a plan is plain, so that its words are planned back.
pub fn parts_of_plans_are_plain()
    ensures { PlansArePlain }
{}
