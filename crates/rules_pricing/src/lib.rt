//! What a position requires alone, over any market.
#![tactic(auto)]

ghost use Rattle.std.specs.Prelude.{◌≡◌, ◌-◌, ◌≤◌, pos};
ghost use Rattle.rules_positions.specs.Records.{terms};
ghost use Rattle.rules_pricing.specs.Options.{in_the_money, out_of_the_money, time_value, counted_time_value, long_option, before_floor, floor_amount, short_option};
ghost use Rattle.rules_pricing.specs.Kinds.{kind_of_right};
ghost use Rattle.rules_pricing.specs.Priced.{Priced};
ghost use Rattle.rules_pricing.specs.Alone.{units, futures, option_alone, alone};

use rules_amounts::{Cents, ContractSize, UnitAmount};
use rules_market::Market;
use rules_positions::{Kind, Record, Side};
use std::marker::Model;

/// What an option gives a right to: a call to buy, a put to sell.
#[derive(Clone, Copy, PartialEq, Eq, Debug)]
pub enum Right {
    Call,
    Put,
}

impl From<Right> for Kind {
    ghost from_gives = { λ x y. y ≡ kind_of_right x };

    fn from(right: Right) -> Kind
        ensures { result ≡ kind_of_right right }
    {
        match right {
            Right::Call => Kind::Call,
            Right::Put => Kind::Put,
        }
    }
}

/// What is priced: contracts of so many units, in one market.
#[derive(Drop)]
pub struct Contract<'a, M: Market> {
    pub market: &'a M,
    pub size: ContractSize,
}

/// A clause sees the market's quote, and how many units a contract has.
impl<'a, M: Market> Model for Contract<'a, M> {
    ghost Value = { Priced };

    ghost view = { λ c. record { quote = M.quote c.market.now; size = c.size.units } };
}

/// How far one amount is above another, 0 where it is not.
pub fn excess(a: Cents, b: Cents) -> Cents
    ensures { result.amount ≡ a.amount - b.amount }
{
    let amount = a.amount.saturating_sub(b.amount);
    Cents { amount }
}

/// What exercise would bring now, in cents a unit.
pub fn in_the_money(right: Right, strike: Cents, price: Cents) -> Cents
    ensures { result.amount ≡ in_the_money right strike.amount price.amount }
{
    match right {
        Right::Call => excess(price, strike),
        Right::Put => excess(strike, price),
    }
}

/// How far the price is from where exercise would bring something, in cents a unit.
/// It is the other way round than in the money: strike and price exchanged.
pub fn out_of_the_money(right: Right, strike: Cents, price: Cents) -> Cents
    ensures { result.amount ≡ out_of_the_money right strike.amount price.amount }
{
    match right {
        Right::Call => excess(strike, price),
        Right::Put => excess(price, strike),
    }
}

/// The premium above the amount in the money.
pub fn time_value(premium: Cents, in_the_money: Cents) -> Cents
    ensures { result.amount ≡ time_value premium.amount in_the_money.amount }
{
    excess(premium, in_the_money)
}

/// The time value that counts, in parts: all of it, and half of it from 270 days up.
pub fn counted_time_value(time_value: Cents, days: u16) -> u64
    ensures value { result ≡ counted_time_value time_value.amount days }
    ensures bound { result ≤ 5000000000 }
{
    if days >= 270 {
        u64::from(time_value.amount) * 5_000
    } else {
        time_value.parts()
    }
}

/// One unit of the underlying.
pub fn units_alone<M: Market>(market: &M, side: Side) -> u64
    ensures { result ≡ units (M.quote market.now) side }
{
    match side {
        Side::Long => market.long_requirement().parts,
        Side::Short => market.short_requirement().parts,
    }
}

impl<M: Market> Contract<'_, M> {
    /// A long option: the time value that counts, and the lesser of the long requirement and the amount in the money.
    pub fn long_option(&self, right: Right, option: &Record) -> u64
        ensures { result ≡ long_option self.now right (terms option.now) }
    {
        let in_money = in_the_money(right, option.strike_cents(), self.market.price());
        let time = counted_time_value(time_value(option.price_cents(), in_money), option.days);
        let held = self.market.long_requirement().parts.min(in_money.parts());
        self.size.times(UnitAmount { parts: time + held })
    }

    /// A short option's first amount: the premium and the option rate of the price, less the amount out of the money. It may be negative.
    pub fn before_floor(&self, right: Right, option: &Record) -> i64
        ensures { result ≡ before_floor self.now right (terms option.now) }
    {
        let price = self.market.price();
        let out = out_of_the_money(right, option.strike_cents(), price);
        let required = option.price_cents().parts() + self.market.option_rate().of(price);
        self.size.difference(
            UnitAmount { parts: required },
            UnitAmount { parts: out.parts() },
        )
    }

    /// A short option's second amount: the premium and the floor rate, of the price for a call, of the strike for a put.
    pub fn floor_amount(&self, right: Right, option: &Record) -> u64
        ensures value { result ≡ floor_amount self.now right (terms option.now) }
        ensures bound { result ≤ 10000000000000 }
    {
        let base = match right {
            Right::Call => self.market.price(),
            Right::Put => option.strike_cents(),
        };
        let required = option.price_cents().parts() + self.market.floor_rate().of(base);
        self.size.times(UnitAmount { parts: required })
    }

    /// A short option: the greater of the two amounts, so never under its floor amount.
    pub fn short_option(&self, right: Right, option: &Record) -> u64
        ensures value { pos result ≡ short_option self.now right (terms option.now) }
        ensures floored { floor_amount self.now right (terms option.now) ≤ result }
    {
        let first = self.before_floor(right, option);
        // The first cast is of at most 10,000,000,000,000; the second is of no less than that amount, so not below 0.
        let second = self.floor_amount(right, option) as i64;
        first.max(second) as u64
    }

    /// Futures, of either side: the futures rate of the settlement, or all of it where there is no rate.
    pub fn futures_alone(&self, settlement: Cents) -> u64
        ensures { result ≡ futures self.now settlement.amount }
    {
        let required = self
            .market
            .futures_rate()
            .map_or(settlement.parts(), |rate| rate.of(settlement));
        self.size.times(UnitAmount { parts: required })
    }

    /// An option of either side.
    pub(crate) fn option_alone(&self, right: Right, option: &Record) -> u64
        ensures { result ≡ option_alone self.now right (terms option.now) }
    {
        match option.side {
            Side::Long => self.long_option(right, option),
            Side::Short => self.short_option(right, option),
        }
    }

    /// What one unit, or one contract, of a position requires alone. A match: each kind has its own rule.
    pub fn alone(&self, position: &Record) -> u64
        ensures { result ≡ alone self.now (terms position.now) }
    {
        match position.kind {
            Kind::Units => units_alone(self.market, position.side),
            Kind::Call => self.option_alone(Right::Call, position),
            Kind::Put => self.option_alone(Right::Put, position),
            Kind::Futures => self.futures_alone(position.price_cents()),
            Kind::Receipt => 0,
        }
    }
}
