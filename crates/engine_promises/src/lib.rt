// What each call of the engine promises, and the two numbers of a line that every call reads first.

#![tactic(auto)]

ghost use Rattle.std.specs.Prelude.{◌≡◌};
ghost use Rattle.words.specs.Le.{load_at};
ghost use Rattle.engine_rows.specs.Layout.{word_place, capacity_word, stations_word};
ghost use Rattle.engine_promises.specs.Steps.{at_most};

// The number of stations; 257 where it is more than 256.
pub fn stations(b: &[u8]) -> u16
    ensures { result ≡ at_most 256 (load_at 8 (word_place stations_word) b.now) }
{
    let n = engine_rows::header(b, engine_rows::STATIONS);
    if 256 < n {
        return 257;
    }
    n as u16
}

// The number of slots; 4097 where it is more than 4096.
pub fn capacity(b: &[u8]) -> u16
    ensures { result ≡ at_most 4096 (load_at 8 (word_place capacity_word) b.now) }
{
    let c = engine_rows::header(b, engine_rows::CAPACITY);
    if 4096 < c {
        return 4097;
    }
    c as u16
}
