ghost use Rattle.std.specs.Prelude.{◌≡◌};
ghost use Rattle.crs_words.specs.Commands.{usage_text};

/// The text that is written where the words are no command.
pub fn usage_text() -> &'static [u8]
    ensures { result.now ≡ usage_text }
{
    b"usage: crs run [--focus] [--summary] [--cite] [--tally KINDS] MODELS LOG\n       crs model [--minimal] MODELS\n       crs drill [--focus] SEED N\n       crs import CSV\n       crs feeds [--focus] MODELS LOG..\n       crs audit MODELS LOG OUTPUT\n"
}
