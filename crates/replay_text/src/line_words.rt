// The lines of host/fixed, by their first word, and the shapes of the words behind it.
//
// A shape is a text and no list of an enum's values: it stands as short as the line that it speaks of.
ghost use Rattle.std.specs.Prelude.{◌≤◌, length};

// The calls of the map.
#[derive(Clone, Copy, PartialEq, Eq)]
pub enum MapCall {
    Fill,
    Arrived,
    Pruned,
    Slide,
    Passable,
}

// The calls on a state area.
#[derive(Clone, Copy, PartialEq, Eq)]
pub enum AreaCall {
    Open,
    Step,
    Ask,
    Age,
}

// The calls that a line may ask for.
#[derive(Clone, Copy, PartialEq, Eq)]
pub enum Call {
    Area(AreaCall),
    Map(MapCall),
}

// What a line is, by its first word.
#[derive(Clone, Copy, PartialEq, Eq)]
pub enum Head {
    Stream,
    Call(Call),
    // what the next call is lent
    Put,
    Poke,
    Areas,
    Map,
    // what a call has to come to
    Answer,
    Command,
    State,
    Pairs,
    LeftMap,
}

impl AreaCall {
    // The call that a first word asks for.
    fn named(word: &[u8]) -> Option<AreaCall> {
        match word {
            b"open" => Some(AreaCall::Open),
            b"step" => Some(AreaCall::Step),
            b"ask" => Some(AreaCall::Ask),
            b"age" => Some(AreaCall::Age),
            _ => None,
        }
    }
}

impl MapCall {
    // The call that a first word asks for.
    fn named(word: &[u8]) -> Option<MapCall> {
        match word {
            b"fill" => Some(MapCall::Fill),
            b"arrived" => Some(MapCall::Arrived),
            b"pruned" => Some(MapCall::Pruned),
            b"slide" => Some(MapCall::Slide),
            b"passable" => Some(MapCall::Passable),
            _ => None,
        }
    }
}

impl Call {
    // The call that a first word asks for.
    fn named(word: &[u8]) -> Option<Call> {
        match AreaCall::named(word) {
            Some(call) => Some(Call::Area(call)),
            None => {
                let call = MapCall::named(word)?;
                Some(Call::Map(call))
            }
        }
    }

    // The shape of a line that asks for it.
    pub fn shape(self) -> &'static [u8]
        ensures { length result.now ≤ 17 }
    {
        match self {
            Call::Area(AreaCall::Open) => b"844444",
            Call::Area(AreaCall::Step) => b"1814xxx824114xxs",
            Call::Area(AreaCall::Ask) => b"1",
            Call::Area(AreaCall::Age) => b"8",
            Call::Map(MapCall::Fill) => b"44x",
            Call::Map(MapCall::Arrived | MapCall::Pruned) => b"41",
            Call::Map(MapCall::Slide) => b"4x",
            Call::Map(MapCall::Passable) => b"",
        }
    }

    // The shape of `=` behind it.
    fn answer_shape(self) -> &'static [u8]
        ensures { length result.now ≤ 17 }
    {
        match self {
            Call::Area(AreaCall::Step) => b"444444444",
            Call::Area(AreaCall::Age) => b"4488",
            Call::Area(AreaCall::Ask) | Call::Map(MapCall::Passable) => b"44",
            Call::Area(AreaCall::Open) | Call::Map(_) => b"4",
        }
    }
}

impl Head {
    // What a line is that says what a call has to come to.
    fn expecting(word: &[u8]) -> Option<Head> {
        match word {
            b"=" => Some(Head::Answer),
            b">" => Some(Head::Command),
            b"." => Some(Head::State),
            b"?" => Some(Head::Pairs),
            b"%" => Some(Head::LeftMap),
            _ => None,
        }
    }

    // What a line is that stands before a call.
    fn giving(word: &[u8]) -> Option<Head> {
        match word {
            // NUL bytes in front of it are read past.
            b"stream" | b"\x00stream" | b"\x00\x00stream" => Some(Head::Stream),
            b"put" => Some(Head::Put),
            b"poke" => Some(Head::Poke),
            b"areas" => Some(Head::Areas),
            b"map" => Some(Head::Map),
            _ => Head::expecting(word),
        }
    }

    // What a line is; nothing where its first word is none of host/fixed.
    pub fn of(line: &[u8]) -> Option<Head> {
        let end = input::find(line, 0, b' ');
        let word = &line[..end];
        match Call::named(word) {
            Some(call) => Some(Head::Call(call)),
            None => Head::giving(word),
        }
    }

    // The shape of such a line; that of `=` goes by the call that was made.
    pub fn shape(self, made: Call) -> &'static [u8]
        ensures { length result.now ≤ 17 }
    {
        match self {
            Head::Stream => b"s",
            Head::Call(call) => call.shape(),
            Head::Put => b"44441p88844411xxx",
            Head::Poke => b"4x",
            Head::Areas => b"44",
            Head::Map | Head::Pairs | Head::LeftMap => b"x",
            Head::Answer => made.answer_shape(),
            Head::Command => b"12284x",
            Head::State => b"1p88844411xxx",
        }
    }
}
