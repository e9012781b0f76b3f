//! The words that begin the lines of events.

ghost use Rattle.std.specs.Prelude.{◌≡◌};
ghost use Rattle.cluster_world.specs.Schedule.{text_of, verb_of};

/// What an event's line begins with.
#[derive(Clone, Copy)]
pub(crate) enum Verb {
    Arrive,
    Post,
    Carry,
    Refuse,
    Serve,
    Fetch,
    Take,
    Drop,
    Discard,
    Import,
    Migrate,
    MoveKey,
    Own,
    Release,
    Forget,
    Stay,
    Answer,
}

impl Verb {
    const ALL: [Verb; 17] = [
        Verb::Arrive,
        Verb::Post,
        Verb::Carry,
        Verb::Refuse,
        Verb::Serve,
        Verb::Fetch,
        Verb::Take,
        Verb::Drop,
        Verb::Discard,
        Verb::Import,
        Verb::Migrate,
        Verb::MoveKey,
        Verb::Own,
        Verb::Release,
        Verb::Forget,
        Verb::Stay,
        Verb::Answer,
    ];

    /// The verb that a word names.
    #[tactic(auto, unfolding(crate::specs::Schedule::verb_of))]
    pub(crate) fn of(word: &[u8]) -> Option<Verb>
        ensures { result ≡ verb_of word.now }
    {
        Verb::ALL.iter().copied().find(|verb| word == verb.text())
    }

    fn text(self) -> &'static [u8]
        ensures { result.now ≡ text_of self }
    {
        match self {
            Verb::Arrive => b"arrive",
            Verb::Post => b"post",
            Verb::Carry => b"carry",
            Verb::Refuse => b"refuse",
            Verb::Serve => b"serve",
            Verb::Fetch => b"fetch",
            Verb::Take => b"take",
            Verb::Drop => b"drop",
            Verb::Discard => b"discard",
            Verb::Import => b"import",
            Verb::Migrate => b"migrate",
            Verb::MoveKey => b"movekey",
            Verb::Own => b"own",
            Verb::Release => b"release",
            Verb::Forget => b"forget",
            Verb::Stay => b"stay",
            Verb::Answer => b"answer",
        }
    }
}
