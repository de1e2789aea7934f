// A form in one number: what row data of a schema are like.
ghost use Rattle.std.specs.Prelude.{◌≡◌, ◌+◌, ◌<◌, eqb};
ghost use Rattle.shapes.specs.Shapes.{form_of, first_in, stops_in, map_in, tail_in, always_in};

// The places of a form's parts behind the first word; that word has the lowest 16 bits.
const STOPS: usize = 65_536;

const MAP: usize = 16_777_216;

const TAIL: usize = 4_294_967_296;

const ALWAYS: usize = 281_474_976_710_656;

// A form.
pub(crate) fn form_of(first: usize, stops: usize, map: usize, tail: usize, always: usize) -> usize
    requires { (first < 65536) × (stops < 256) × (map < 256) × (tail < 65536) × (always < 2) }
    ensures { result ≡ form_of first stops map tail always }
{
    first + STOPS * stops + MAP * map + TAIL * tail + ALWAYS * always
}

// Its first word.
pub fn first_in(form: usize) -> usize
    ensures { (result ≡ first_in form) × (result < 65536) }
{
    form % STOPS
}

// How many words it has.
pub fn stops_in(form: usize) -> usize
    ensures { (result ≡ stops_in form) × (result < 256) }
{
    form / STOPS % 256
}

// The bytes of a map.
pub fn map_in(form: usize) -> usize
    ensures { (result ≡ map_in form) × (result < 256) }
{
    form / MAP % 256
}

// The bytes behind the last stop.
pub fn tail_in(form: usize) -> usize
    ensures { (result ≡ tail_in form) × (result < 65536) }
{
    form / TAIL % 65_536
}

// 1 where some field is always there.
pub fn always_in(form: usize) -> usize
    ensures { result ≡ always_in form }
{
    form / ALWAYS
}

// Whether there is no stop and no map, so that all data have one size.
pub fn is_rigid(form: usize) -> bool
    ensures { result ≡ eqb (stops_in form + map_in form) 0 }
{
    form / STOPS % 65_536 == 0
}
