//! The words by which inspectors are asked.

/// The kinds of question.
#[derive(Clone, Copy)]
pub(crate) enum Word {
    Inbreeding,
    Inverse,
    Certificate,
    Mating,
    Relationships,
    Coefficient,
    Records,
    Record,
    Seal,
    Sealed,
    Seen,
}

impl Word {
    ghost use Rattle.std.specs.Prelude.{◌≡◌};
    ghost use Rattle.herd_requests.specs.Questions.{word_of};

    /// The kind that a text names.
    pub(crate) fn parse(text: &[u8]) -> Option<Word>
        ensures { result ≡ word_of text.now }
    {
        if text == b"inbreeding".as_slice() {
            Some(Word::Inbreeding)
        } else if text == b"inverse".as_slice() {
            Some(Word::Inverse)
        } else if text == b"certificate".as_slice() {
            Some(Word::Certificate)
        } else if text == b"mating".as_slice() {
            Some(Word::Mating)
        } else if text == b"relationships".as_slice() {
            Some(Word::Relationships)
        } else if text == b"coefficient".as_slice() {
            Some(Word::Coefficient)
        } else if text == b"records".as_slice() {
            Some(Word::Records)
        } else if text == b"record".as_slice() {
            Some(Word::Record)
        } else if text == b"seal".as_slice() {
            Some(Word::Seal)
        } else if text == b"sealed".as_slice() {
            Some(Word::Sealed)
        } else if text == b"seen".as_slice() {
            Some(Word::Seen)
        } else {
            None
        }
    }
}
