// Records for a host: bytes to values and back, little-endian, one byte of kind and then a fixed body.
#![tactic(auto)]

pub mod bond_record;
pub mod dated_swap_record;
mod fields;
mod record;
pub mod row_record;
pub mod swap_record;
pub mod terms_record;

// Kind 1, a loan's terms.
#[derive(Clone, Copy)]
pub struct Terms {
    pub principal: f64,
    pub rate: f64,
    pub term: u32,
}

// Kind 2, a bond; its frequency is the code that the record holds.
#[derive(Clone, Copy)]
pub struct BondRecord {
    pub face: f64,
    pub coupon: f64,
    pub maturity: f64,
    pub frequency: u8,
}

// Kind 3, a row of a schedule.
#[derive(Clone, Copy)]
pub struct Row {
    pub month: u32,
    pub payment: f64,
    pub principal: f64,
    pub interest: f64,
    pub balance: f64,
}

// Kind 4, a swap; its day count is the code that the record holds.
#[derive(Clone, Copy)]
pub struct SwapRecord {
    pub notional: f64,
    pub rate: f64,
    pub tenor: f64,
    pub frequency: u32,
    pub count: u8,
}

// Kind 5, a dated swap: kind 4's numbers, two dates, of the calendar or not, and the day count's code. Its tenor is kept and read by nothing.
#[derive(Clone, Copy)]
pub struct DatedSwapRecord {
    pub notional: f64,
    pub rate: f64,
    pub tenor: f64,
    pub frequency: u32,
    pub first: dates::Date,
    pub second: dates::Date,
    pub count: u8,
}
