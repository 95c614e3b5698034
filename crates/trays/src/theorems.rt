// The theorems on trays and their reader, as promises of a call.
ghost use Rattle.std.specs.Prelude.{◌≡◌, true};
ghost use Rattle.trays.specs.Answers.{ReaderReadsOneWay, RequestsInOrder};
ghost use Rattle.trays.specs.Layout.{TrayReadsOneWay, TrayReadsBack, WholeTrayIsSound};

// Every byte string is one list of parts with one ending; a tray that is written out reads back as its parts; what reads to
// the end is such a tray; wherever a reader stands, there is one reading of what is to come; and the nth request gives the
// nth item.
pub fn theorems_stand() -> bool
    ensures one_way { TrayReadsOneWay }
    ensures back { TrayReadsBack }
    ensures whole { WholeTrayIsSound }
    ensures reader { ReaderReadsOneWay }
    ensures requests { RequestsInOrder }
    ensures answer { result ≡ true }
{
    theorems();
    true
}

// The promises hang on a call, so that code without it is refused.
fn theorems()
    ensures one_way { TrayReadsOneWay }
    ensures back { TrayReadsBack }
    ensures whole { WholeTrayIsSound }
    ensures reader { ReaderReadsOneWay }
    ensures requests { RequestsInOrder }
{}
