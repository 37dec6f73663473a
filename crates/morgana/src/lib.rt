// The C interface (01, 'The keysheet program and the host'; 02, E2, E9, E4, E6 and E14): check, evaluate, cell and compare over byte slices
// and slices of 32-bit numbers, evaluate and compare over either field, locate, the shorter of two keys, the price of an evaluation, and the
// move of a key into the other edition. A reply is a struct of numbers: where nothing is refused its number and place are 0, and where
// something is, every other field is 0, but for the key that a refused comparison names. The reply on the shorter key has no number and no
// place, which compare tells.
#![tactic(auto)]

mod reply;

ghost use Rattle.std.specs.Prelude.{◌≡◌, ltb};
ghost use Rattle.field.specs.Scalars.{prime};
ghost use Rattle.quadratic.specs.Quadratic.{quadratic};
ghost use Rattle.key.specs.Check.{checked_key};
ghost use Rattle.key.specs.Factors.{FactorsLimited};
ghost use Rattle.evaluation.specs.Cell.{celled};
ghost use Rattle.evaluation.specs.Evaluate.{evaluated};
ghost use Rattle.comparison.specs.AgreementBound.{Agreement, is_same};
ghost use Rattle.comparison.specs.Compare.{compared, BothLimited};
ghost use Rattle.shorter.specs.Shorter.{handed_key};
ghost use Rattle.location.specs.Cell.{Certain};
ghost use Rattle.location.specs.Locate.{located};
ghost use Rattle.price.specs.FactorsPriced.{FactorsPriced};
ghost use Rattle.price.specs.Price.{rates_of, priced};
ghost use Rattle.editions.specs.Move.{moving};
ghost use Rattle.editions.specs.OtherEdition.{Moves};
ghost use Rattle.morgana.specs.Reply.{check_reply, evaluate_reply, quadratic_reply, compare_reply, shorter_reply, locate_reply, price_reply, move_reply};
ghost use Rattle.morgana.specs.Version.{version};

// The reply to check: an accepted key's counts of arrays, cells and calls, and its row bits and column bits.
#[repr(C)]
#[derive(Clone, Copy)]
pub struct CheckReply {
    pub number: u32,
    pub place: u64,
    pub arrays: u32,
    pub cells: u32,
    pub calls: u32,
    pub rows: u32,
    pub columns: u32,
}

// The reply to evaluate and to cell: the last array's values, and how many factors were taken for all arrays.
#[repr(C)]
#[derive(Clone, Copy)]
pub struct EvaluateReply {
    pub number: u32,
    pub place: u64,
    pub a: u32,
    pub b: u32,
    pub c: u32,
    pub factors: u64,
}

// The reply to evaluate over the field of p² elements: the last array's values, u and v of each, and the factors.
#[repr(C)]
#[derive(Clone, Copy)]
pub struct QuadraticReply {
    pub number: u32,
    pub place: u64,
    pub a_u: u32,
    pub a_v: u32,
    pub b_u: u32,
    pub b_v: u32,
    pub c_u: u32,
    pub c_v: u32,
    pub factors: u64,
}

// The reply to compare, over either field: the key that a refusal is about, 1 the first, 2 the second, 0 neither; 1 for "same"; and how
// many factors were taken for both keys.
#[repr(C)]
#[derive(Clone, Copy)]
pub struct CompareReply {
    pub number: u32,
    pub place: u64,
    pub key: u32,
    pub same: u32,
    pub factors: u64,
}

// The reply to locate: the key that a refusal is about, as for compare; 1 for "same"; and where the keys are found different the row and the
// column of a cell in which they differ, with A, B and C of the first key and of the second there.
#[repr(C)]
#[derive(Clone, Copy)]
pub struct LocateReply {
    pub number: u32,
    pub place: u64,
    pub key: u32,
    pub same: u32,
    pub row: u32,
    pub column: u32,
    pub first_a: u32,
    pub first_b: u32,
    pub first_c: u32,
    pub second_a: u32,
    pub second_b: u32,
    pub second_c: u32,
}

// The reply to shorter: the key that is handed back whole, 1 the first, 2 the second, 0 for the empty beginning of the first; and the length
// of what is handed back.
#[repr(C)]
#[derive(Clone, Copy)]
pub struct ShorterReply {
    pub key: u32,
    pub length: u64,
}

// The reply to price: the price of an evaluation in pence.
#[repr(C)]
#[derive(Clone, Copy)]
pub struct PriceReply {
    pub number: u32,
    pub place: u64,
    pub pence: u64,
}

// The reply to move: the copy's length.
#[repr(C)]
#[derive(Clone, Copy)]
pub struct MoveReply {
    pub number: u32,
    pub place: u64,
    pub length: u64,
}

// The version of the library: 1,000,000 for each major, 1,000 for each minor, 1 for each patch version.
#[unsafe(no_mangle)]
pub extern "C" fn morgana_version() -> u32
    ensures { result ≡ version }
{
    7000
}

// Whether bytes are an accepted key: its counts, or the first fault with its place.
#[unsafe(no_mangle)]
pub extern "C" fn morgana_check(key: &[u8]) -> CheckReply
    ensures reply { result ≡ check_reply (checked_key key.now) }
{
    match key::check(key) {
        Ok(counts) => {
            let arrays = counts.arrays as u32;
            let cells = counts.cells as u32;
            let calls = counts.calls as u32;
            CheckReply {
                number: 0,
                place: 0,
                arrays: arrays,
                cells: cells,
                calls: calls,
                rows: counts.rows as u32,
                columns: counts.columns as u32,
            }
        }
        Err(refusal) => CheckReply {
            number: reply::number(refusal),
            place: refusal.place as u64,
            arrays: 0,
            cells: 0,
            calls: 0,
            rows: 0,
            columns: 0,
        },
    }
}

// The last array's A, B and C at a point, and every array's on the sheet, those of array i from place 3i on; a refused call leaves
// the sheet. By `limit` the factors that are answered are at most (n + n')·(cells + calls).
#[unsafe(no_mangle)]
pub extern "C" fn morgana_evaluate(
    key: &[u8],
    rows: &[u32],
    columns: &[u32],
    sheet: &mut [u32],
) -> EvaluateReply
    ensures reply { result ≡
        evaluate_reply (evaluated prime key.now rows.now columns.now sheet.old).answer }
    ensures sheet { sheet.new ≡
        (evaluated prime key.now rows.now columns.now sheet.old).sheet }
    ensures limit { FactorsLimited key.now }
{
    reply::of_evaluated(evaluate::evaluate(key, rows, columns, sheet))
}

// The last array's dense A, B and C at a row and a column, and the sheet as after evaluate at the bits of the two; a refused call
// leaves the sheet.
#[unsafe(no_mangle)]
pub extern "C" fn morgana_cell(
    key: &[u8],
    row: u32,
    column: u32,
    sheet: &mut [u32],
) -> EvaluateReply
    ensures reply { result ≡ evaluate_reply (celled key.now row column sheet.old).answer }
    ensures sheet { sheet.new ≡ (celled key.now row column sheet.old).sheet }
    ensures limit { FactorsLimited key.now }
{
    reply::of_evaluated(evaluate::cell(key, row, column, sheet))
}

// Whether two keys have the same A, B and C at a point, filled with zeros where their shapes differ. The sheet ends as if the first key and
// then the second had been evaluated on it, each at its own leading coordinates, and a refused call leaves it. Demand 3 is `reply` and
// `agreement` together, as for `compare::compare`.
#[unsafe(no_mangle)]
pub extern "C" fn morgana_compare(
    first: &[u8],
    second: &[u8],
    rows: &[u32],
    columns: &[u32],
    sheet: &mut [u32],
) -> CompareReply
    ensures reply { result ≡
        compare_reply
        (compared prime first.now second.now rows.now columns.now sheet.old).answer
        (compared prime first.now second.now rows.now columns.now sheet.old
        ).factors }
    ensures sheet { sheet.new ≡
        (compared prime first.now second.now rows.now columns.now sheet.old
        ).sheet }
    ensures agreement { Agreement prime first.now second.now }
    ensures limit { BothLimited first.now second.now result.factors }
{
    reply::of_compared(compare::compare(first, second, rows, columns, sheet))
}

// A cell in which two keys differ, where they are found different at a point; it says "same" and refuses where compare does. The sheet is
// then as after compare at the bits of the row and of the column, or as compare leaves it where no cell is answered. `certain` says that
// the keys' dense matrices differ in the answered cell, as for `locate::locate`.
#[unsafe(no_mangle)]
pub extern "C" fn morgana_locate(
    first: &[u8],
    second: &[u8],
    rows: &[u32],
    columns: &[u32],
    sheet: &mut [u32],
) -> LocateReply
    ensures reply { result ≡
        locate_reply
        (located first.now second.now rows.now columns.now sheet.old).answer }
    ensures sheet { sheet.new ≡
        (located first.now second.now rows.now columns.now sheet.old).sheet }
    ensures certain { Certain first.now second.now
        (located first.now second.now rows.now columns.now sheet.old).answer }
{
    reply::of_located(locate::locate(first, second, rows, columns, sheet))
}

// Which key `shorter::shorter` hands back: the shorter of the two where compare says "same" at the point, the first on a tie, and the empty
// beginning of the first where it says "different" or refuses; and its length. By `told` the length is 0 exactly where compare does not say
// "same". The sheet is as compare leaves it. `agreement` is as for `compare::compare`.
#[unsafe(no_mangle)]
pub extern "C" fn morgana_shorter(
    first: &[u8],
    second: &[u8],
    rows: &[u32],
    columns: &[u32],
    sheet: &mut [u32],
) -> ShorterReply
    ensures reply { result ≡
        shorter_reply
        (handed_key first.now second.now rows.now columns.now sheet.old)
        first.now second.now }
    ensures sheet { sheet.new ≡
        (compared prime first.now second.now rows.now columns.now sheet.old
        ).sheet }
    ensures told { ltb 0 result.length ≡
        is_same
        (compared prime first.now second.now rows.now columns.now sheet.old
        ).answer }
    ensures agreement { Agreement prime first.now second.now }
{
    let which = shorter::which(&*first, &*second, rows, columns, sheet);
    reply::of_shorter(which, first, second)
}

// The last array's A, B and C at a point of the field of p² elements, two numbers a coordinate, u first, and every array's on the sheet,
// those of array i from place 6i on, u before v; a refused call leaves the sheet.
#[unsafe(no_mangle)]
pub extern "C" fn morgana_evaluate_quadratic(
    key: &[u8],
    rows: &[u32],
    columns: &[u32],
    sheet: &mut [u32],
) -> QuadraticReply
    ensures reply { result ≡
        quadratic_reply
        (evaluated quadratic key.now rows.now columns.now sheet.old).answer }
    ensures sheet { sheet.new ≡
        (evaluated quadratic key.now rows.now columns.now sheet.old).sheet }
    ensures limit { FactorsLimited key.now }
{
    reply::of_quadratic(evaluate_quadratic::evaluate(key, rows, columns, sheet))
}

// Whether two keys have the same A, B and C at a point of the field of p² elements, filled with zeros where their shapes differ. The sheet
// ends as if the first key and then the second had been evaluated on it, each at its own leading coordinates, and a refused call leaves it.
// `reply` and `agreement` together are the agreement bound where q is p².
#[unsafe(no_mangle)]
pub extern "C" fn morgana_compare_quadratic(
    first: &[u8],
    second: &[u8],
    rows: &[u32],
    columns: &[u32],
    sheet: &mut [u32],
) -> CompareReply
    ensures reply { result ≡
        compare_reply
        (compared quadratic first.now second.now rows.now columns.now sheet.old).answer
        (compared quadratic first.now second.now rows.now columns.now sheet.old
        ).factors }
    ensures sheet { sheet.new ≡
        (compared quadratic first.now second.now rows.now columns.now
        sheet.old).sheet }
    ensures agreement { Agreement quadratic first.now second.now }
    ensures limit { BothLimited first.now second.now result.factors }
{
    reply::of_compared(compare_quadratic::compare(first, second, rows, columns, sheet))
}

// What an evaluation of the key costs, in pence, at rates in hundredths of a penny per cell, per call and per factor, divided once, half a
// penny upwards. By `factors` a penny for each factor is as many pence as evaluate, over either field, and cell answer factors.
#[unsafe(no_mangle)]
pub extern "C" fn morgana_price(
    key: &[u8],
    per_cell: u32,
    per_call: u32,
    per_factor: u32,
) -> PriceReply
    ensures reply { result ≡ price_reply (priced key.now (rates_of per_cell per_call per_factor)) }
    ensures factors { FactorsPriced prime key.now × FactorsPriced quadratic key.now }
{
    reply::of_priced(price::price(key, per_cell, per_call, per_factor))
}

// The key copied to the start of the buffer, into the edition that its head isn't. The answer is the copy's length, and the bytes behind
// it stay; a refused call leaves the buffer. By `copy` check, cell and locate, and evaluate and compare over either field, answer on the copy
// as on the key, and moved in its turn it gives the key. `morgana_shorter` compares alike too, and goes by the copy's own length.
#[unsafe(no_mangle)]
pub extern "C" fn morgana_move(key: &[u8], buffer: &mut [u8]) -> MoveReply
    ensures reply { result ≡ move_reply (moving key.now buffer.old).answer }
    ensures buffer { buffer.new ≡ (moving key.now buffer.old).buffer }
    ensures copy { Moves prime key.now buffer.old × Moves quadratic key.now buffer.old }
{
    reply::of_copied(editions::moved(key, buffer))
}
