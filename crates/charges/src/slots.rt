// Where the sums of rows stand in the tables: first those of interest by currency and band, then those of the other classes.
use book::LAST_GROUP;
use ladder::{BANDS, COMMODITY_BANDS};

// The groups of a class, 0 to the last.
// A cast, since a constant calls no function.
pub const GROUPS: usize = LAST_GROUP as usize + 1;

// The first slot of commodities, of equity and of foreign exchange, and how many slots there are.
pub const COMMODITY: usize = GROUPS * BANDS;

pub const EQUITY: usize = COMMODITY + GROUPS * COMMODITY_BANDS;

pub const EXCHANGE: usize = EQUITY + GROUPS;

pub const SLOTS: usize = EXCHANGE + GROUPS;

// The slots of a table that has one for each class and group.
pub const GROUP_SLOTS: usize = 4 * GROUPS;
