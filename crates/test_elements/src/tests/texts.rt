mod json;
mod printed;
