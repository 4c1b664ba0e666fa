//! What the methods of an image come to, by a typing; nothing in it runs.
//!
//! Holds what the verifier finds, what acceptance tests and what the machine keeps to, as definitions: the typing of one
//! method and the strongest one, which methods an instruction may call, how many frames a method may need and how many
//! cleanup entries it may come to. Promises: the strongest typing says as much of each place as any, and an image whose
//! methods have depths and heights keeps within 256 frames and 1,024 cleanup entries. It knows no way to find a typing
//! or a table of depths.
//!
//! Prices: how many steps a method may take, and the destruction of an object. A table of prices pays for a typing if
//! each place pays for its instruction and for each way to go on (`IsPriced`). The price itself is the most over the
//! paths of a method (`ArePrices`). One pass from the last place to the first finds both: `swept_pays` and
//! `swept_is_price`. It knows nothing of the machine; that a run takes no more steps than its price is shown above it.
#![tactic(auto)]

mod laws;

pub use laws::{
    depths_are_within, heights_are_within, price_needs_fail, prices_are_found, prices_are_one,
    strongest_says_most, swept_is_price, swept_pays, swept_up_to_is_price,
};
