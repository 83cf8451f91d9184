//! What a node answers, and what it keeps for others, by hand, as tests. They call what anybody
//! may, and stand apart so that neither is proved a second time with them.
#![tactic(auto)]

#[cfg(test)]
mod items;
#[cfg(test)]
mod kept;
#[cfg(test)]
mod lasting;
#[cfg(test)]
mod peers;
#[cfg(test)]
mod replies;
#[cfg(test)]
mod sealed;
#[cfg(test)]
mod silence;
#[cfg(test)]
mod store;
#[cfg(test)]
mod table;
#[cfg(test)]
mod two_networks;
#[cfg(test)]
mod vouched;
#[cfg(test)]
mod whole;
#[cfg(test)]
mod workers;
