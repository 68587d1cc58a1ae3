//! Disconnect-Requests, and what is said to them.

use crate::fixtures::{are, client, cut};
use agent_settings::Client;
use disconnect_map::{disconnect, verdict};
use std::alloc::Global;
use std::test::Fail;

/// The request for the session `A1` of `nemo`, and that without a user.
const REQUEST: &str = "280000249ca36dc238c6313e1f9fb7d59cd65bf101066e656d6f0406c0a801102c044131";

const WITHOUT_USER: &str = "2807001e4aa5b4b0c89e9b750ee5c645cfece1ec0406c0a801102c044131";

/// Datagrams, each with what it says to the request: the session was ended, it wasn't, or nothing. Their digests are another
/// program's.
const SAID: &str = "\
29000014b17b764073d8a212d53458f0cf9048fb|ended
2a00001a28dd699d601f8a1866ed252a24433db86506000001f7|refused
2900002f76568648dcc134c1aac133cc03d9c4ba210770726f78795012787878787878787878787878787878785002|ended
29000014b17b764073d8a212d53458f0cf9048fb0001ff|ended
2a00001a28dd699d601f8a1866ed252a24433db86506000001f729000014b17b764073d8a212d53458f0cf9048fb|refused
29010014da97d8855d079bcbdd5b653c9bcaa049|
29000014b17b764073d8a212d53458f0cf9048fa|
29000014317b764073d8a212d53458f0cf9048fb|
29000014b17b764073d8a202d53458f0cf9048fb|
29000014d1c13ce5be52566547785bb5712fc964|
2900001442cd1254692a6e23b2d7b1d9127f21f0|
290000142c22dab56baf84132a3910f5b9e73bbf|
28000014415b33f09656910cb82b1aec53249759|
2b000014c17bb3a3cc338fa42aec43aba44b66ca|
280000249ca36dc238c6313e1f9fb7d59cd65bf101066e656d6f0406c0a801102c044131|
290000156e5646d98e5cb1ff40cc2c1323ad6072|
290000130d8be3745bcd39b272de9d470fbf421f|
2900001615bcc5cde78b7afc6429994c261bbb4c2103|
29000016967d3cebea1098239ae382150e2c76b62101|
29000014b17b764073d8a212d53458f0cf9048|
|
2900001a28dd699d601f8a1866ed252a24433db86506000001f7|";

/// Whether the requests are made.
fn are_made(alloc: Global, client: &Client) -> Result<bool, Fail> {
    let request = disconnect(alloc, client, 0, Some(b"nemo"), b"A1")?;
    let without_user = disconnect(alloc, client, 7, None, b"A1")?;
    Ok(
        are(request.as_slice(), alloc, REQUEST)?
            && are(without_user.as_slice(), alloc, WITHOUT_USER)?,
    )
}

/// Whether a datagram says what it is to say.
fn says(alloc: Global, client: &Client, request: &[u8], case: &str) -> Result<bool, Fail> {
    let (digits, wanted) = cut(case);
    let octets = hex::decode(alloc, digits)?;
    if request.len() < 20 {
        return Ok(false);
    }
    let said = match verdict(client, request, octets.as_slice()) {
        Some(true) => "ended",
        Some(false) => "refused",
        None => "",
    };
    Ok(said == wanted)
}

#[test]
fn requests_to_disconnect(rt: HostRuntime) -> Result<(), Fail> {
    let client = client(rt.alloc())?;
    let request = hex::decode(rt.alloc(), REQUEST)?;
    assert!(rt; are_made(rt.alloc(), &client)?);
    for case in SAID.lines() {
        assert!(rt;
            says(rt.alloc(), &client, request.as_slice(), case)?,
            "{case}"
        );
    }
    Ok(())
}
