//! Tests of sessions on a house; of a viewer's views; and of devices, engines and houses of the least and the greatest
//! sizes.
#![tactic(auto)]

#[cfg(test)]
mod auctions;
#[cfg(test)]
mod devices;
#[cfg(test)]
mod houses;
#[cfg(test)]
mod in_time;
#[cfg(test)]
mod one_session;
#[cfg(test)]
mod outputs;
#[cfg(test)]
mod rows;
#[cfg(test)]
mod rows_of_flights;
#[cfg(test)]
mod rows_of_houses;
#[cfg(test)]
mod rows_of_views;
