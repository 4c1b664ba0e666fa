//! The laws, each as the contract of a function that does nothing.
ghost use Rattle.aom_static_bounds.specs.Cases.{PriceNeedsFail};
ghost use Rattle.aom_static_bounds.specs.PriceLaws.{PricesAreFound, PricesAreOne, SweptIsPrice, SweptPays, SweptUpToIsPrice};
ghost use Rattle.aom_static_bounds.specs.Laws.{DepthsAreWithin, HeightsAreWithin, StrongestSaysMost};

/// What one pass finds pays for each move.
pub fn swept_pays()
    ensures { SweptPays }
{}

/// What one pass finds is the price: the most over the paths.
pub fn swept_is_price()
    ensures { SweptIsPrice }
{}

/// There are prices, wherever methods pay for those before them alone.
pub fn prices_are_found()
    ensures { PricesAreFound }
{}

/// And no other prices, whatever finds them.
pub fn prices_are_one()
    ensures { PricesAreOne }
{}

/// What one pass finds with each sum kept up to a limit is the price up to that limit.
pub fn swept_up_to_is_price()
    ensures { SweptUpToIsPrice }
{}

/// Each instruction costs what its table says, and a method with a loop in a loop what its lines add up to.
pub fn price_needs_fail()
    ensures { PriceNeedsFail }
{}

/// No typing says more of a place than the strongest one.
pub fn strongest_says_most()
    ensures { StrongestSaysMost }
{}

/// Where the methods have depths, no stack of frames is higher than 256.
pub fn depths_are_within()
    ensures { DepthsAreWithin }
{}

/// Where they have heights, none comes to more than 1,024 cleanup entries.
pub fn heights_are_within()
    ensures { HeightsAreWithin }
{}
