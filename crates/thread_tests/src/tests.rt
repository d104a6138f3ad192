mod gates;
mod judged;
mod links;
mod refused;
mod threads;
mod turns;
